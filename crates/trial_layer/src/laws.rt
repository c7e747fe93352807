//! What holds of trials over whole runs of calls.
ghost use Rattle.trial_layer.specs.Laws.{BookedOneByOne, BooksInOrder};

/// A new object enters what put back would leave, and an update leaves that as it is and counts one in the book, or finds it full
/// and leaves it overrun: call by call, and over every run of a layer's calls from its beginning.
pub fn books_in_order()
    ensures steps { BookedOneByOne }
    ensures runs { BooksInOrder }
{}
