//! Laws of the format, each the contract of a function that does nothing: what an encoding, a
//! stream and its cuts are, without the recursion of the definitions.

ghost use Rattle.std.specs.Prelude.{◌≡◌, ◌↔◌, ◌⊎◌, ℕ, List, [], ◌++◌, ◌∷◌, Some, Err, Ok};
ghost use Rattle.std.specs.List.{flat_map, AllByRecursion};
ghost use Rattle.resp_wire.specs.declared.fault.ProtocolFault.{ProtocolFault as Fault};
ghost use Rattle.resp_wire.specs.declared.fault.ProtocolFault.TheVariants.{NotAnArray, BadNumber, TooManyArguments, TooLong, BadBulk};
ghost use Rattle.resp_wire.specs.declared.fault.Stop.TheVariants.{Short, Wrong};
ghost use Rattle.resp_messages.specs.RequestEncoding.{Item, IsItem, encoding_of};
ghost use Rattle.resp_wire.specs.Parser.{item_at};
ghost use Rattle.resp_wire.specs.FirstWrongByte.{HasNoStar, HasTooManyArguments, HasWrongCount, HasNoDollar, HasTooLong, HasWrongLength, HasNoEnd};
ghost use Rattle.resp_wire.specs.Stream.{items, requests, rest, fault};

/// An encoding is read as its item, whatever follows, and what is read is an encoding of its item.
pub fn encoding_round_trip()
    ensures again { (item : Item) (more : List ℕ) → IsItem item → item_at (encoding_of item ++ more)
        ≡ Ok (item, more) }
    ensures takes { (text : List ℕ) (item : Item) (more : List ℕ) → item_at text ≡ Ok (item, more)
        → (text ≡ encoding_of item ++ more) × IsItem item }
{}

/// An item has one encoding, and no encoding is a prefix of another.
pub fn one_encoding()
    ensures { (a b : Item) (x y : List ℕ) → IsItem a → IsItem b → encoding_of a ++ x ≡ encoding_of b ++ y
        → (a ≡ b) × (x ≡ y) }
{}

/// Too short is exactly a proper prefix of an encoding. What has a wrong byte is a prefix of none,
/// and the fault is that of its shortest prefix that begins none, told by its last byte.
pub fn faults()
    ensures begins { (text : List ℕ) → item_at text ≡ Err Short → (item : Item) × (x : ℕ)
        × (more : List ℕ) × IsItem item × (text ++ x ∷ more ≡ encoding_of item) }
    ensures short { (text : List ℕ) (item : Item) (x : ℕ) (more : List ℕ) → IsItem item → text ++ x
        ∷ more ≡ encoding_of item → item_at text ≡ Err Short }
    ensures none { (text : List ℕ) (f : Fault) → item_at text ≡ Err (Wrong f)
        → (item : Item) (x y : List ℕ) → IsItem item → text ++ x ≡ encoding_of item ++ y → ⊥ }
    ensures first { (text : List ℕ) (f : Fault) → item_at text ≡ Err (Wrong f) → (start : List ℕ)
        × (b : ℕ) × (more : List ℕ) × (text ≡ start ++ b ∷ more) × (item_at start ≡ Err Short)
        × (item_at (start ++ b ∷ []) ≡ Err (Wrong f)) }
{}

/// Which fault is told: each exactly where the text has, at its first wrong byte, what a row of the
/// table in docs/FORMATS.md says of it.
pub fn fault_table()
    ensures not_an_array { (text : List ℕ) → item_at text ≡ Err (Wrong NotAnArray) ↔ HasNoStar text }
    ensures bad_number { (text : List ℕ) → item_at text ≡ Err (Wrong BadNumber)
        ↔ (HasWrongCount text ⊎ HasWrongLength text) }
    ensures too_many_arguments { (text : List ℕ) → item_at text ≡ Err (Wrong TooManyArguments)
        ↔ HasTooManyArguments text }
    ensures too_long { (text : List ℕ) → item_at text ≡ Err (Wrong TooLong) ↔ HasTooLong text }
    ensures bad_bulk { (text : List ℕ) → item_at text ≡ Err (Wrong BadBulk)
        ↔ (HasNoDollar text ⊎ HasNoEnd text) }
{}

/// The items of a text are the longest list of items whose encodings, joined, are a prefix of it.
pub fn longest()
    ensures whole { (text : List ℕ) → (text ≡ flat_map encoding_of (items text) ++ rest text)
        × AllByRecursion IsItem (items text) }
    ensures most { (others : List Item) (more : List ℕ) → AllByRecursion IsItem others
        → items (flat_map encoding_of others ++ more) ≡ others ++ items more }
{}

/// A stream may be read in any pieces: wherever a text is cut, its requests are first those of the
/// prefix, and then those that the prefix's unfinished end and the back make together.
pub fn cut()
    ensures requests_are { (a b : List ℕ) → requests (a ++ b) ≡ requests a
        ++ requests (rest a ++ b) }
    ensures rest_is { (a b : List ℕ) → rest (a ++ b) ≡ rest (rest a ++ b) }
    ensures fault_is { (a b : List ℕ) → fault (a ++ b) ≡ fault (rest a ++ b) }
    ensures goes_on { (fed held piece : List ℕ) (given : List (List (List ℕ))) → requests fed
        ≡ given ++ requests held → rest fed ≡ rest held
        → (requests (fed ++ piece) ≡ given ++ requests (held ++ piece))
        × (rest (fed ++ piece) ≡ rest (held ++ piece)) }
    ensures stays { (a b : List ℕ) (f : Fault) → fault a ≡ Some f → (requests (a ++ b) ≡ requests a)
        × (fault (a ++ b) ≡ Some f) }
{}
