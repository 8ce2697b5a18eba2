//! Why a command is refused.

ghost use Rattle.std.specs.Prelude.{◌≡◌};
ghost use Rattle.zset_commands.specs.Refusal.{refusal_number, refusal_text};
ghost use Rattle.zset_commands.specs.declared.refusal.Refusal.TheVariants as refusals;

use std::alloc::AllocError;
use std::error::Error;
use std::fmt::{self, Display, Formatter, Write};

/// Why a command is refused. No refusal changes a member or a score of any set. Of the causes 2 to
/// 16 that hold the one with the least number is told; `OutOfStep` is looked for before `Spent`,
/// and `NoMemory` comes wherever an allocation fails. Numbers and texts are this project's own.
#[derive(Clone, Copy, Debug, PartialEq, Eq)]
pub enum Refusal {
    /// An allocation failed at that point of the work.
    NoMemory,
    /// No command has this name.
    UnknownCommand,
    /// The command takes another number of arguments.
    WrongArity,
    /// A score without a member, or an argument where an option is wanted.
    Syntax,
    /// NX and XX in one command.
    NxAndXx,
    /// Two of GT, LT and NX in one command.
    GtLtNx,
    /// INCR with another number of pairs than one.
    IncrPair,
    /// An argument that is no score where one is wanted.
    BadScore,
    /// An argument that is no bound where one is wanted.
    BadBound,
    /// An argument of LIMIT that is no integer.
    BadInteger,
    /// Every place of a table of sets bears another key's name. No owner tells it.
    TableFull,
    /// The key's place in a table has had all the runs that it is given. No owner tells it.
    Spent,
    /// An increased score would lie outside 64 bits.
    ScoreOverflow,
    /// An append failed in an earlier call.
    LogBroken,
    /// The append file has as many records as it is given.
    LogFull,
    /// The append failed in this call.
    LogRefused,
    /// A place of a table and the pass that asks it tell different numbers. No owner tells it.
    OutOfStep,
}

impl Refusal {
    /// The refusal's number, 1 to 17.
    pub fn number(&self) -> u8
        ensures { result ≡ refusal_number self.now }
    {
        match self {
            Refusal::NoMemory => 1,
            Refusal::UnknownCommand => 2,
            Refusal::WrongArity => 3,
            Refusal::Syntax => 4,
            Refusal::NxAndXx => 5,
            Refusal::GtLtNx => 6,
            Refusal::IncrPair => 7,
            Refusal::BadScore => 8,
            Refusal::BadBound => 9,
            Refusal::BadInteger => 10,
            Refusal::TableFull => 11,
            Refusal::Spent => 12,
            Refusal::ScoreOverflow => 13,
            Refusal::LogBroken => 14,
            Refusal::LogFull => 15,
            Refusal::LogRefused => 16,
            Refusal::OutOfStep => 17,
        }
    }

    /// The text of the error reply, behind the `-`.
    pub fn text(&self) -> &'static str
        ensures { result.now ≡ refusal_text self.now }
    {
        match self {
            Refusal::NoMemory => "ERR 1 out of memory",
            Refusal::UnknownCommand => "ERR 2 unknown command",
            Refusal::WrongArity => "ERR 3 wrong number of arguments",
            Refusal::Syntax => "ERR 4 syntax error",
            Refusal::NxAndXx => "ERR 5 NX and XX exclude each other",
            Refusal::GtLtNx => "ERR 6 GT, LT and NX exclude each other",
            Refusal::IncrPair => "ERR 7 INCR takes one pair",
            Refusal::BadScore => "ERR 8 score is not a whole number of 64 bits",
            Refusal::BadBound => "ERR 9 min or max is not a score bound",
            Refusal::BadInteger => "ERR 10 LIMIT takes two whole numbers",
            Refusal::TableFull => "ERR 11 no place left for a key",
            Refusal::Spent => "ERR 12 place is spent",
            Refusal::ScoreOverflow => "ERR 13 score out of range",
            Refusal::LogBroken => "ERR 14 append file failed earlier",
            Refusal::LogFull => "ERR 15 append file is full",
            Refusal::LogRefused => "ERR 16 append file failed",
            Refusal::OutOfStep => "ERR 17 place and pass disagree",
        }
    }
}

impl Display for Refusal {
    fn fmt<W: Write>(&self, f: &mut Formatter<W>) -> fmt::Result {
        f.write_str(self.text())
    }
}

impl Error for Refusal {}

impl From<AllocError> for Refusal {
    ghost from_gives = { λ _ refusal. refusal ≡ refusals.NoMemory };

    fn from(_error: AllocError) -> Refusal {
        Refusal::NoMemory
    }
}
