//! The check of a table of rows.
#![tactic(auto)]

ghost use Rattle.std.specs.Prelude.{◌≡◌, ℕ, ◌+◌, ◌-◌, ◌*◌, ◌<◌, ◌≤◌, List, [], ◌∷◌, ◌++◌, length, drop, Some, None, IfOk, MatchResult};
ghost use Rattle.calculus.specs.declared.refusals.RowFault.TheVariants.{Ends};
ghost use Rattle.calculus.specs.declared.refusals.Refusal.TheVariants.{AtRow};
ghost use Rattle.calculus.specs.Kinds.{kind_number};
ghost use Rattle.calculus.specs.Sizes.{row_sizes};
ghost use Rattle.rows.specs.Verdict.{Want, a_term, methods, term_fault, method_fault, walk, after, verdict};
ghost use Rattle.rows.specs.Laws.{Accepts, FirstFault};

use calculus::code::Counts;
use calculus::refusals::{Refusal, RowFault};
use calculus::rows::{Row, RowKind};

/// A table has at most this many rows.
pub const MOST_ROWS: usize = 65_535;
/// A program takes at most this many givens.
pub const MOST_GIVENS: u32 = 16;
/// The first row is at depth 1, a part is one deeper than its owner, and none is deeper than this.
pub const MOST_DEPTH: u32 = 200;
/// An object has at most this many methods.
pub const MOST_METHODS: i64 = 64;

/// How deep a row lies, and under how many variables.
#[derive(Clone, Copy)]
struct Level {
    depth: u32,
    scope: u32,
    ghost deep: { depth ≤ 201 },
    ghost scoped: { scope ≤ depth + 16 },
}

impl Level {
    /// The level of a part, under the same variables.
    fn part(self) -> Level
        requires { self.depth ≤ 200 }
        ensures { (result.depth ≡ self.depth + 1) × (result.scope ≡ self.scope) }
    {
        Level {
            depth: self.depth + 1,
            scope: self.scope,
        }
    }

    /// The level of a body, under one variable more.
    fn body(self) -> Level
        requires { self.depth ≤ 200 }
        ensures { (result.depth ≡ self.depth + 1) × (result.scope ≡ self.scope + 1) }
    {
        Level {
            depth: self.depth + 1,
            scope: self.scope + 1,
        }
    }
}

/// The kind of a row that begins a term at this level, or what is wrong with it.
fn term_kind(row: Row, level: Level) -> Result<RowKind, RowFault>
    ensures { MatchResult result
        (λ kind. (kind_number kind ≡ row.kind) × (term_fault row level.depth level.scope ≡ None))
        (λ fault. term_fault row level.depth level.scope ≡ Some fault) }
{
    match RowKind::try_from(row.kind) {
        Err(_) | Ok(RowKind::Method) => Err(RowFault::Kind),
        _ if level.depth > MOST_DEPTH => Err(RowFault::Depth),
        Ok(RowKind::Object) if row.number < 0 || row.number > MOST_METHODS => {
            Err(RowFault::MethodCount)
        }
        Ok(RowKind::Variable) if row.number < 1 || row.number > level.scope as i64 => {
            Err(RowFault::Index)
        }
        Ok(kind) => Ok(kind),
    }
}

/// The label of a row that begins a method at this level, after methods of these labels, or what is wrong with it.
fn method_label(row: Row, level: Level, seen: &[u16]) -> Result<u16, RowFault>
    ensures { MatchResult result
        (λ label. (label ≡ row.label) × (method_fault row level.depth seen.now ≡ None))
        (λ fault. method_fault row level.depth seen.now ≡ Some fault) }
{
    match RowKind::try_from(row.kind) {
        Ok(RowKind::Method) if level.depth > MOST_DEPTH => Err(RowFault::Depth),
        Ok(RowKind::Method) if seen.contains(&row.label) => Err(RowFault::LabelTwice),
        Ok(RowKind::Method) => Ok(row.label),
        _ => Err(RowFault::Kind),
    }
}

/// Rows that are few enough to be checked.
#[derive(Clone, Copy)]
struct Table<'a> {
    rows: &'a [Row],
    ghost few: { length rows.now ≤ 65535 },
}

impl Table<'_> {
    /// The row at `at`, or that the rows end there.
    fn row(&self, at: usize) -> Result<Row, Refusal>
        requires { at ≤ length self.now.rows.now }
        ensures { MatchResult result
            (λ row. (at < length self.now.rows.now) × (drop at self.now.rows.now ≡ row ∷ drop (at + 1) self.now.rows.now))
            (λ refusal. (refusal ≡ AtRow Ends at) × (drop at self.now.rows.now ≡ [])) }
    {
        let ended = Refusal::AtRow(RowFault::Ends, at as u32);
        self.rows.get(at).copied().ok_or(ended)
    }

    /// Checks the term that begins at row `at`: where it ends, or the first fault.
    #[cycle(check_methods_check_term)]
    fn check_term(&self, at: usize, level: Level) -> Result<usize, Refusal>
        requires { at ≤ length self.now.rows.now }
        ensures place { IfOk result (λ next. (at < next) × (next ≤ length self.now.rows.now)) }
        ensures walks { (ws : List Want) → walk (drop at self.now.rows.now) at (a_term level.depth level.scope ∷ ws) ≡ after result self.now.rows.now ws }
    {
        let row = self.row(at)?;
        let kind = term_kind(row, level).map_err(|fault| Refusal::AtRow(fault, at as u32))?;
        match kind {
            RowKind::Object => self.check_methods(at + 1, row.number as u32, level.part()),
            RowKind::Select | RowKind::Clone => self.check_term(at + 1, level.part()),
            RowKind::Update | RowKind::Let => {
                let body = self.check_term(at + 1, level.part())?;
                self.check_term(body, level.body())
            }
            _ => Ok(at + 1),
        }
    }

    /// Checks the methods of an object, from row `from` on.
    #[cycle(check_methods_check_term)]
    fn check_methods(&self, from: usize, count: u32, level: Level) -> Result<usize, Refusal>
        requires within { from ≤ length self.now.rows.now }
        requires counted { count ≤ 64 }
        ensures place { IfOk result (λ next. (from ≤ next) × (next ≤ length self.now.rows.now)) }
        ensures walks { (ws : List Want) → walk (drop from self.now.rows.now) from (methods count level.depth level.scope [] ++ ws) ≡ after result self.now.rows.now ws }
    {
        // The first `k` are the labels so far: an array of the most there can be, since nothing is allocated here.
        let mut seen = [0u16; 64];
        let mut at = from;
        for k in 0..count as usize {
            let row = self.row(at)?;
            let label = method_label(row, level, &seen[..k]);
            seen[k] = label.map_err(|fault| Refusal::AtRow(fault, at as u32))?;
            at = self.check_term(at + 1, level.body())?;
        }
        Ok(at)
    }

    /// What the rows take of each code table.
    fn sizes(&self) -> Counts
        ensures { result ≡ row_sizes self.now.rows.now }
    {
        let mut sizes = Counts {
            contents: 1,
            ..Counts::default()
        };
        for row in self.rows {
            match RowKind::try_from(row.kind) {
                Ok(RowKind::Method) => {
                    sizes.contents += 1;
                    sizes.methods += 1;
                }
                Ok(RowKind::Let | RowKind::Update) => {
                    sizes.contents += 1;
                    sizes.operations += 1;
                }
                _ => sizes.operations += 1,
            }
        }
        sizes
    }
}

/// Accepts the rows of a term under a number of givens, with what they take of each code table, or refuses at the first faulty row.
pub fn check_rows(rows: &[Row], givens: u32) -> Result<Counts, Refusal>
    ensures verdict { result ≡ verdict rows.now givens }
    ensures accepts { Accepts rows.now givens result }
    ensures first { FirstFault rows.now givens result }
{
    if rows.is_empty() || rows.len() > MOST_ROWS {
        return Err(Refusal::RowCount);
    }
    if givens > MOST_GIVENS {
        return Err(Refusal::GivenCount);
    }
    let table = Table { rows };
    let outermost = Level {
        depth: 1,
        scope: givens,
    };
    let end = table.check_term(0, outermost)?;
    if end < rows.len() {
        return Err(Refusal::AtRow(RowFault::Left, end as u32));
    }
    Ok(table.sizes())
}
