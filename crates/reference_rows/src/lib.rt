// Reference jobs: a short table of operands with their results, established of the written definitions.
#![tactic(auto)]

ghost use Rattle.std.specs.Prelude.{◌≡◌};
ghost use Rattle.reference_rows.specs.References.{reference_rows, Established};

use single::mode::Mode;

/// A fixed-point reference job of width 4 and 4 places: the operand, its result, and whether it is exact.
#[derive(Clone, Copy, Drop, PartialEq, Eq, Debug)]
pub struct FixedRow {
    pub x: u32,
    pub f: u32,
    /// Whether f is the root itself; f is there in both cases, so no `Option` says it.
    pub exact: bool,
}

/// A reference job on a single: the mode, the operand's word, the result's word, and whether it is exact.
#[derive(Clone, Copy, Drop, PartialEq, Eq, Debug)]
pub struct SingleRow {
    pub mode: Mode,
    pub operand: u32,
    pub result: u32,
    /// Whether the result is the root itself; there is one in both cases.
    pub exact: bool,
}

/// The reference jobs.
#[derive(Clone, Copy, Drop, PartialEq, Eq, Debug)]
pub struct Rows {
    pub fixed: [FixedRow; 5],
    pub singles: [SingleRow; 5],
}

/// Gives the reference jobs, which are established of the definitions, all together.
pub fn reference_rows() -> Rows
    ensures is { result ≡ reference_rows }
    ensures established { Established }
{
    Rows {
        fixed: [
            row(5, 28, false),
            row(8, 22, false),
            row(12, 18, false),
            row(15, 16, false),
            row(4, 32, true),
        ],
        singles: [
            single_row(Mode::Nearest, 0x4000_0000, 0x3f35_04f3, false),
            single_row(Mode::Nearest, 0x3e80_0000, 0x4000_0000, true),
            single_row(Mode::Nearest, 0x3f7f_ffff, 0x3f80_0000, false),
            single_row(Mode::Nearest, 0x3f80_0001, 0x3f7f_ffff, false),
            single_row(Mode::Up, 0x3f80_0001, 0x3f80_0000, false),
        ],
    }
}

/// Makes a row. A literal would take five lines of the table, and this takes one.
fn row(x: u32, f: u32, exact: bool) -> FixedRow
    ensures { result ≡ record { x = x; f = f; exact = exact } }
{
    FixedRow { x, f, exact }
}

/// Makes a row of a single, in one line of the table as well.
fn single_row(mode: Mode, operand: u32, res: u32, exact: bool) -> SingleRow
    ensures { result ≡ record { mode = mode; operand = operand; result = res; exact = exact } }
{
    SingleRow {
        mode,
        operand,
        result: res,
        exact,
    }
}
