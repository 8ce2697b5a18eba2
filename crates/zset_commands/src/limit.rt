//! The option LIMIT of ZRANGEBYSCORE.

ghost use Rattle.std.specs.Prelude.{◌≡◌};
ghost use Rattle.zset_commands.specs.CommandGrammar.{limit_value};

use score_bounds::read_integer;

/// Which pairs of a listing are wanted, as the command page of ZRANGEBYSCORE has it.
#[derive(Clone, Copy, Debug, PartialEq, Eq)]
pub struct Limit {
    /// How many pairs are passed over; where it is negative, none is wanted.
    pub offset: i64,
    /// How many pairs are wanted from there on; all of them where it is negative.
    pub count: i64,
}

impl Limit {
    /// The limit of the option's two arguments, or `None` if one of them is no integer of 64 bits.
    pub fn read(offset: &[u8], count: &[u8]) -> Option<Limit>
        ensures { result ≡ limit_value offset.now count.now }
    {
        Some(Limit {
            offset: read_integer(offset)?,
            count: read_integer(count)?,
        })
    }
}
