//! Listing back: operation lists as rows.
#![tactic(auto)]

ghost use Rattle.std.specs.Prelude.{◌≡◌, ℕ, ◌<◌, ◌≤◌, true, List, map, length, take, drop, IfOk, Some};
ghost use Rattle.calculus.specs.Held.{counted};
ghost use Rattle.calculus.specs.Terms.{Term};
ghost use Rattle.calculus.specs.Rows.{rows_of, plain, Is, fits};
ghost use Rattle.calculus.specs.Trees.{trans, done};
ghost use Rattle.calculus.specs.Text.{Text, used, joined, rooms, within};
ghost use Rattle.calculus.specs.Layout.{compiled};
ghost use Rattle.calculus.specs.Standing.{Program};
ghost use Rattle.listing.specs.Areas.{told, lent_rooms};
ghost use Rattle.listing.specs.Nesting.{nesting};
ghost use Rattle.listing.specs.Back.{answer, Gave};
ghost use Rattle.listing.specs.Laws.{ListsBack, ListsOnly, TwoHundred, RoundTrip};
ghost use Rattle.listing.specs.Examples.{Worked};

pub mod extent;
pub mod pending;
mod reading;
mod turning;
mod writing;

use crate::pending::Pending;
use crate::turning::list_program;
use calculus::area::used_of;
use calculus::code::{CodeArea, Counts, Tables};
use calculus::refusals::Refusal;
use calculus::rows::Row;

/// Lists a program back: writes its rows from the front of `rows` and says how many they are.
/// `stack` is room for the lists that are begun and not ended; 200 are enough for compiled code.
pub fn list_back(
    program: u32,
    area: &CodeArea<'_>,
    rows: &mut [Row],
    stack: &mut [Pending],
) -> Result<u32, Refusal>
    // the rows, or the first refusal
    ensures answer { Some (told result (λ n. take n rows.new)) ≡ answer area.now.tables area.now.counts (lent_rooms rows.old stack.old) program }
    // past the rows written they are as they were
    ensures kept { IfOk result (λ n. (n ≤ length rows.new) × (drop n rows.new ≡ drop n rows.old)) }
    // whatever the tables hold, what comes back is the rows of a term that the program stands for
    ensures only { IfOk result (λ n. (t : Term) × (g : ℕ) × Program (used area.now.tables area.now.counts) program g (trans t done) × (take n rows.new ≡ rows_of t)) }
    // what stands for the tree of a term comes back as the term's rows, where there is room
    ensures stands { (t : Term) (g : ℕ) →
        within area.now.counts (rooms area.now.tables) ≡ true →
        Program (used area.now.tables area.now.counts) program g (trans t done) →
        length (rows_of t) ≤ counted (length rows.old) →
        nesting t < counted (length stack.old) →
        Gave (rows_of t) result rows.old rows.new }
    // what was compiled comes back as the rows compiled, whatever was compiled before and after
    ensures compiled { (T U : Text) (table : List Row) (g : ℕ) (t : Term) →
        within area.now.counts (rooms area.now.tables) ≡ true →
        used area.now.tables area.now.counts ≡ joined (compiled T g t) U → program ≡ length T.contents →
        Is table t → fits t 1 g ≡ true →
        length table ≤ counted (length rows.old) → 200 ≤ counted (length stack.old) →
        Gave (map plain table) result rows.old rows.new }
{
    list_back_of(program, &area.tables, area.counts, rows, stack)
}

/// The same for tables that are lent to be read alone, and for any counts of them.
pub fn list_back_of(
    program: u32,
    tables: &Tables<'_>,
    counts: Counts,
    rows: &mut [Row],
    stack: &mut [Pending],
) -> Result<u32, Refusal>
    // the rows, or the first refusal
    ensures answer { Some (told result (λ n. take n rows.new)) ≡ answer tables.now counts (lent_rooms rows.old stack.old) program }
    // past the rows written they are as they were
    ensures kept { IfOk result (λ n. (n ≤ length rows.new) × (drop n rows.new ≡ drop n rows.old)) }
    // whatever the tables hold, what comes back is the rows of a term that the program stands for
    ensures only { IfOk result (λ n. (t : Term) × (g : ℕ) × Program (used tables.now counts) program g (trans t done) × (take n rows.new ≡ rows_of t)) }
    // what stands for the tree of a term comes back as the term's rows, where there is room
    ensures stands { (t : Term) (g : ℕ) →
        within counts (rooms tables.now) ≡ true →
        Program (used tables.now counts) program g (trans t done) →
        length (rows_of t) ≤ counted (length rows.old) →
        nesting t < counted (length stack.old) →
        Gave (rows_of t) result rows.old rows.new }
    // what was compiled comes back as the rows compiled, whatever was compiled before and after
    ensures compiled { (T U : Text) (table : List Row) (g : ℕ) (t : Term) →
        within counts (rooms tables.now) ≡ true →
        used tables.now counts ≡ joined (compiled T g t) U → program ≡ length T.contents →
        Is table t → fits t 1 g ≡ true →
        length table ≤ counted (length rows.old) → 200 ≤ counted (length stack.old) →
        Gave (map plain table) result rows.old rows.new }
{
    let code = used_of(tables, counts).ok_or(Refusal::CountOutside)?;
    list_program(program, &code, rows, stack)
}

/// A program that stands for the tree of a term is listed back as the term's rows.
pub fn lists_back()
    ensures { ListsBack }
{}

/// Nothing else is listed back.
pub fn lists_only()
    ensures { ListsOnly }
{}

/// Two hundred pending lists are enough for a term within the limits.
pub fn two_hundred()
    ensures { TwoHundred }
{}

/// What was compiled is listed back as the rows compiled, unused fields zero.
pub fn round_trip()
    ensures { RoundTrip }
{}

/// The worked examples come out as they should.
pub fn worked()
    ensures { Worked }
{}
