//! The numbers of a line.

/// A number where it fits the type, and else 0.
pub fn fitted<T: TryFrom<i64> + Default>(number: i64) -> T
where
    T::Error: Drop,
{
    T::try_from(number).unwrap_or_default()
}

/// The numbers after the first word of a line.
pub fn numbers_of(line: &str) -> [i64; 6] {
    let mut numbers = [0; 6];
    let read = line
        .split_whitespace()
        .filter_map(|word| word.parse::<i64>().ok());
    for (number, value) in numbers.iter_mut().zip(read) {
        *number = value;
    }
    numbers
}
