use crate::trouble::Trouble;
use selection::operand::Operand;
use single::mode::Mode;
use std::alloc::Global;
use std::env;
use std::rt::Env;

/// What `trace help` prints.
pub(crate) const HELP: &str = "trace works one job off and prints every digit.

  trace [MAKE] [K Q x]            a fixed-point operand x / 2^K, to Q places (4 4 8 where they are left out)
  trace [MAKE] single WORD [MODE] a single by its word in hexadecimal

MAKE is a radix, radix2 or radix4, and a form, plain, carry-save or borrow-save; left out, radix2 and plain.
MODE is nearest, toward-zero, up or down; left out, nearest.";

/// The radix of the selector.
#[derive(Clone, Copy, Drop, PartialEq, Eq, Debug)]
pub(crate) enum Radix {
    Two,
    Four,
}

/// The number form.
#[derive(Clone, Copy, Drop, PartialEq, Eq, Debug)]
pub(crate) enum Form {
    Plain,
    CarrySave,
    BorrowSave,
}

/// What is to be worked off.
#[derive(Clone, Copy, Drop)]
pub(crate) enum Task {
    Help,
    Fixed(Operand),
    Single(u32, Mode),
}

/// What a call of the program asks for.
#[derive(Clone, Copy, Drop)]
pub(crate) struct Request {
    pub(crate) radix: Radix,
    pub(crate) form: Form,
    pub(crate) task: Task,
}

/// The kinds of task. Where the arguments name several, the last of them here is meant.
#[derive(Clone, Copy, Drop, PartialEq, Eq, PartialOrd, Ord, Debug)]
enum Kind {
    Fixed,
    Single,
    Help,
}

/// What the arguments name, apart from numbers.
#[derive(Clone, Copy, Drop, PartialEq, Eq, Debug)]
struct Named {
    radix: Radix,
    form: Form,
    mode: Mode,
    kind: Kind,
}

impl Named {
    /// Takes a word that names something; answers false for any other.
    fn take(&mut self, word: &str) -> bool {
        // one match is plainer than a `FromStr` for each of four enums, tried in turn; Mode's could not stand in this crate
        match word {
            "radix2" => self.radix = Radix::Two,
            "radix4" => self.radix = Radix::Four,
            "plain" => self.form = Form::Plain,
            "carry-save" => self.form = Form::CarrySave,
            "borrow-save" => self.form = Form::BorrowSave,
            "nearest" => self.mode = Mode::Nearest,
            "toward-zero" => self.mode = Mode::TowardZero,
            "up" => self.mode = Mode::Up,
            "down" => self.mode = Mode::Down,
            "help" => self.kind = self.kind.max(Kind::Help),
            "single" => self.kind = self.kind.max(Kind::Single),
            _ => return false,
        }
        true
    }
}

/// Reads the request from the arguments.
pub(crate) fn read(rt: &(impl Env + AllocGlobal)) -> Result<Request, Trouble> {
    let alloc = rt.alloc();
    let mut named = Named {
        radix: Radix::Two,
        form: Form::Plain,
        mode: Mode::Nearest,
        kind: Kind::Fixed,
    };
    let mut words = Vec::new(alloc);
    for word in env::args(rt)?.skip(1) {
        if !named.take(&word) {
            words.push(word)?;
        }
    }
    let task = match named.kind {
        Kind::Fixed => read_fixed(alloc, &words)?,
        Kind::Single => read_single(&words, named.mode)?,
        Kind::Help => Task::Help,
    };
    Ok(Request {
        radix: named.radix,
        form: named.form,
        task,
    })
}

/// Reads a fixed-point operand.
fn read_fixed(alloc: Global, words: &[String]) -> Result<Task, Trouble> {
    let (k, q, x) = match words {
        [] => (4, 4, 8),
        [k, q, x] => (
            read_number(alloc, k)?,
            read_number(alloc, q)?,
            read_number(alloc, x)?,
        ),
        _ => return Err(Trouble::Usage),
    };
    Ok(Task::Fixed(Operand::new(k, q, x)?))
}

/// Reads the word of a single.
fn read_single(words: &[String], mode: Mode) -> Result<Task, Trouble> {
    // a slice pattern: no `?` takes one word out of a slice of one
    let [word] = words else {
        return Err(Trouble::Usage);
    };
    let bits = u32::from_str_radix(word, 16).try_map_err(|_| -> Result<Trouble, Trouble> {
        Ok(Trouble::NoWord(word.clone()?))
    })?;
    Ok(Task::Single(bits, mode))
}

/// Reads a number.
fn read_number(alloc: Global, word: &str) -> Result<u32, Trouble> {
    word.parse::<u32>().try_map_err(|_| -> Result<Trouble, Trouble> {
        Ok(Trouble::NoNumber(word.to_string(alloc)?))
    })
}
