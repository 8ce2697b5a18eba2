//! Laws of how requests are read: each function's contract is a law, and its body is empty.

ghost use Rattle.std.specs.Prelude.{◌≡◌, ℕ, List, map, None, IsSome};
ghost use Rattle.std.specs.List.Sorted.{IsStrictlyIncreasing};
ghost use Rattle.zset_commands.specs.CommandGrammar.{conditions, meaning, refusal_of};
ghost use Rattle.zset_commands.specs.Refusal.{refusal_number};

/// A request that gets none of the refusals has a meaning.
pub fn unrefused_requests()
    ensures { (words : List (List ℕ)) → refusal_of words ≡ None → IsSome (meaning words) }
{}

/// The conditions of a request stand by rising numbers of their refusals, so the first that holds
/// has the least number.
pub fn condition_order()
    ensures { (words : List (List ℕ))
        → IsStrictlyIncreasing (map (λ c. refusal_number c.1) (conditions words)) }
{}
