//! Laws of replay, each the contract of a function that does nothing.

ghost use Rattle.std.specs.Prelude.{◌≡◌, List, Some};
ghost use Rattle.zset_core.specs.SetsByKey.{World as WorldType};
ghost use Rattle.log_records.specs.Records.{Record};
ghost use Rattle.log_records.specs.Replay.{after, replay_as};
ghost use Rattle.log_records.specs.declared.version.Version.TheVariants.{Commands, Effects};

/// Records that a file of version 2 may hold lead to the same sets in one of version 1.
pub fn effects_are_commands()
    ensures one { (world next : WorldType) (entry : Record)
        → after Effects world entry ≡ Some next → after Commands world entry ≡ Some next }
    ensures all { (start end : WorldType) (records : List Record)
        → replay_as Effects start records ≡ Some end → replay_as Commands start records ≡ Some end }
{}
