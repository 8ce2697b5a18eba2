//! The names of the commands.

ghost use Rattle.std.specs.Prelude.{◌≡◌};
ghost use Rattle.zset_commands.specs.CommandGrammar.{command_named, has_arity, is_named};

/// A command by its name (Redis command pages).
#[derive(Clone, Copy, Debug, PartialEq, Eq)]
pub enum CommandName {
    /// PING
    Ping,
    /// ZADD
    Add,
    /// ZREM
    Remove,
    /// ZREMRANGEBYSCORE
    RemoveRange,
    /// ZSCORE
    Score,
    /// ZCARD
    Card,
    /// ZCOUNT
    Count,
    /// ZRANGEBYSCORE
    ListRange,
}

impl CommandName {
    /// The command that an argument names, letters in either case.
    #[tactic(auto, unfolding(crate::specs::CommandGrammar::command_named))]
    pub fn read(word: &[u8]) -> Option<Self>
        ensures { result ≡ command_named word.now }
    {
        if is_named(b"PING", word) {
            Some(CommandName::Ping)
        } else if is_named(b"ZADD", word) {
            Some(CommandName::Add)
        } else if is_named(b"ZREM", word) {
            Some(CommandName::Remove)
        } else if is_named(b"ZREMRANGEBYSCORE", word) {
            Some(CommandName::RemoveRange)
        } else if is_named(b"ZSCORE", word) {
            Some(CommandName::Score)
        } else if is_named(b"ZCARD", word) {
            Some(CommandName::Card)
        } else if is_named(b"ZCOUNT", word) {
            Some(CommandName::Count)
        } else if is_named(b"ZRANGEBYSCORE", word) {
            Some(CommandName::ListRange)
        } else {
            None
        }
    }

    /// Whether the command takes this number of arguments, its name included.
    pub fn takes(self, count: usize) -> bool
        ensures { result ≡ has_arity self count }
    {
        match self {
            CommandName::Ping => count == 1 || count == 2,
            CommandName::Add => 4 <= count,
            CommandName::Remove => 3 <= count,
            CommandName::RemoveRange => count == 4,
            CommandName::Score => count == 3,
            CommandName::Card => count == 2,
            CommandName::Count => count == 4,
            CommandName::ListRange => 4 <= count,
        }
    }
}

/// Whether an argument is this name, letters in either case. Most clients write a name as it is here, so each letter is
/// compared as it stands first.
pub fn is_named(name: &[u8], word: &[u8]) -> bool
    ensures { result ≡ is_named name.now word.now }
{
    if word.len() != name.len() {
        return word.eq_ignore_ascii_case(name);
    }
    let mut letters = name;
    let mut rest = word;
    while let ([letter, letters_behind @ ..], [byte, rest_behind @ ..]) = (letters, rest) {
        if *byte != *letter && !byte.eq_ignore_ascii_case(letter) {
            return false;
        }
        letters = letters_behind;
        rest = rest_behind;
    }
    letters.is_empty() && rest.is_empty()
}
