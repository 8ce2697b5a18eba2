//! Three connections that share one owner of sets.

use crate::devices::{Device, Devices, Pace};
use crate::model::{Case, Modelled, played};
use crate::orders::{CYCLES, Order, SEEDS};
use crate::scripts::Script;
use crate::served::{Told, told_over};
use sorted_sets::OneOwner;
use std::alloc::Global;
use std::hash::RandomState;
use std::test::*;

/// What three clients are told over an owner without sets.
fn told_anew(rt: &HostRuntime, case: &Case<'_>) -> Result<Told, Fail> {
    let mut owner = OneOwner::new(rt.alloc(), RandomState::new(rt)?);
    let told = told_over(rt, rt.alloc(), &mut owner, case);
    drop(owner);
    told
}

/// What the model makes of them, over such an owner.
fn played_anew<'c>(rt: &HostRuntime, case: &Case<'c>) -> Result<Vec<Modelled<'c>>, Fail> {
    let mut owner = OneOwner::new(rt.alloc(), RandomState::new(rt)?);
    let played = played(rt, rt.alloc(), &mut owner, case);
    drop(owner);
    played
}

/// Whether the clients are told what the model says.
fn are_told_alike(told: &Told, modelled: &[Modelled<'_>]) -> bool {
    let clients = told.bytes.iter().zip(told.ended_at.iter());
    for ((bytes, ended_at), modelled) in clients.zip(modelled.iter()) {
        if !modelled.is_told(bytes, *ended_at) {
            return false;
        }
    }
    told.bytes.len() == modelled.len() && told.ended_at.len() == modelled.len()
}

/// Whether the model has so many requests of each client run.
fn have_run(modelled: &[Modelled<'_>], requests: [usize; 3]) -> bool {
    for (modelled, requests) in modelled.iter().zip(requests.iter()) {
        if !modelled.has_run(*requests) {
            return false;
        }
    }
    modelled.len() == requests.len()
}

/// Whether three clients are told what the model says, which has so many requests of each run.
fn are_answered(rt: &HostRuntime, case: &Case<'_>, requests: [usize; 3]) -> Result<bool, Fail> {
    let told = told_anew(rt, case)?;
    let modelled = played_anew(rt, case)?;
    let are_answered = are_told_alike(&told, &modelled) && have_run(&modelled, requests);
    drop(told);
    drop(modelled);
    Ok(are_answered)
}

/// A side that moves so many bytes in a call.
fn side(chunk: usize, is_slow: bool) -> Device {
    Device {
        chunk,
        fails_at: 0,
        is_slow,
    }
}

/// A client that sends and takes so many bytes at a time.
fn client(sent: usize, taken: usize, is_slow: bool) -> Devices {
    Devices {
        from: side(sent, is_slow),
        to: side(taken, is_slow),
    }
}

/// What the three clients send.
fn scripts_of<'r>(
    alloc: Global,
    requests: [&'r [&'r str]; 3],
    times: usize,
) -> Result<Vec<Script<'r>>, Fail> {
    let mut scripts = Vec::new(alloc);
    for requests in requests {
        scripts.push(Script::new(alloc, requests, times)?)?;
    }
    Ok(scripts)
}

/// Requests of the same lengths, so that the turns alone say which are whole first.
const SUMS: [&[&str]; 3] = [
    &["ZADD k INCR 1 a", "ZCARD k"],
    &["ZADD k INCR 2 a", "ZCARD k"],
    &["ZADD k INCR 4 a", "ZCARD k"],
];

/// The orders of the turns, and the sums that the three are told, a digit each.
const WORKED: [([usize; 3], [u8; 3]); 6] = [
    ([0, 1, 2], [b'1', b'3', b'7']),
    ([0, 2, 1], [b'1', b'7', b'5']),
    ([1, 0, 2], [b'3', b'2', b'7']),
    ([1, 2, 0], [b'7', b'2', b'6']),
    ([2, 0, 1], [b'5', b'7', b'4']),
    ([2, 1, 0], [b'7', b'6', b'4']),
];

/// Whether a client was told this sum, and that the set has one member.
fn is_told(bytes: &[u8], sum: u8) -> bool {
    let mut wanted = *b"$1\r\n0\r\n:1\r\n";
    wanted[4] = sum;
    bytes == wanted.as_slice()
}

/// Whether each client was told its sum.
fn are_told(told: &Told, sums: [u8; 3]) -> bool {
    for (bytes, sum) in told.bytes.iter().zip(sums.iter()) {
        if !is_told(bytes, *sum) {
            return false;
        }
    }
    told.bytes.len() == sums.len()
}

/// Whether the sums of these turns are told.
fn are_told_in(
    rt: &HostRuntime,
    scripts: &[Script<'_>],
    cycle: [usize; 3],
    sums: [u8; 3],
) -> Result<bool, Fail> {
    let case = Case {
        scripts,
        devices: [client(1, 65_536, false); 3],
        pace: Pace::Stands,
        order: Order::Cycle(cycle),
    };
    let told = told_anew(rt, &case)?;
    let are_told = are_told(&told, sums);
    drop(told);
    Ok(are_told)
}

#[test]
fn the_order_of_the_turns_is_told(rt: HostRuntime) -> Result<(), Fail> {
    let scripts = scripts_of(rt.alloc(), SUMS, 1)?;
    for (cycle, sums) in WORKED {
        assert!(rt; are_told_in(&rt, &scripts, cycle, sums)?, "{cycle:?}");
    }
    Ok(())
}

/// Requests whose replies tell which others were run before.
const MIXED: [&[&str]; 3] = [
    &[
        "ZADD k INCR 1 a",
        "ZRANGEBYSCORE k -inf +inf WITHSCORES",
        "ZADD k INCR 1 b",
        "ZCARD k",
    ],
    &[
        "ZADD k INCR 10 a",
        "ZCARD k",
        "ZREM k b",
        "ZADD k INCR 20 c",
        "ZRANGEBYSCORE k -inf +inf WITHSCORES",
    ],
    &[
        "ZADD k INCR 100 a",
        "ZADD k INCR 200 b",
        "ZRANGEBYSCORE k -inf +inf WITHSCORES",
        "ZADD k XX INCR 400 c",
        "ZCARD k",
    ],
];

/// Whether clients that send a byte at a time are told what the model says, ready ones and slow ones.
fn are_answered_bytewise(
    rt: &HostRuntime,
    scripts: &[Script<'_>],
    order: Order,
) -> Result<bool, Fail> {
    for devices in [client(1, 65_536, false), client(1, 3, true)] {
        let case = Case {
            scripts,
            devices: [devices; 3],
            pace: Pace::Stands,
            order,
        };
        if !are_answered(rt, &case, [4, 5, 5])? {
            return Ok(false);
        }
    }
    Ok(true)
}

#[test]
fn bytes_in_each_order_are_answered_as_by_an_owner(rt: HostRuntime) -> Result<(), Fail> {
    let scripts = scripts_of(rt.alloc(), MIXED, 1)?;
    for cycle in CYCLES {
        let order = Order::Cycle(cycle);
        assert!(rt; are_answered_bytewise(&rt, &scripts, order)?, "{cycle:?}");
    }
    for seed in SEEDS {
        let order = Order::Seed(seed);
        assert!(rt; are_answered_bytewise(&rt, &scripts, order)?, "seed {seed}");
    }
    Ok(())
}

/// Some orders of the turns.
const FEW_ORDERS: [Order; 3] = [
    Order::Cycle([0, 1, 2]),
    Order::Cycle([2, 1, 0]),
    Order::Seed(1),
];

/// How the time goes in parts of turns that end before what was read is answered.
static PACES: [(&str, Pace); 6] = [
    ("stands", Pace::Stands),
    ("creeps", Pace::Creeps),
    ("ambles", Pace::Ambles),
    ("walks", Pace::Walks),
    ("trots", Pace::Trots),
    ("fails", Pace::Fails),
];

/// Whether clients that send much at a time are told what the model says, ready ones and slow ones, in each of some
/// orders, while the time goes so.
fn are_answered_at(rt: &HostRuntime, scripts: &[Script<'_>], pace: Pace) -> Result<bool, Fail> {
    for order in FEW_ORDERS {
        for devices in [client(16_384, 65_536, false), client(1000, 100, true)] {
            let case = Case {
                scripts,
                devices: [devices; 3],
                pace,
                order,
            };
            if !are_answered(rt, &case, [160, 200, 200])? {
                return Ok(false);
            }
        }
    }
    Ok(true)
}

// Where the time stands still, a turn ends with its last request or with the 128th.
#[test]
fn what_a_turn_leaves_is_answered_in_the_next(rt: HostRuntime) -> Result<(), Fail> {
    let scripts = scripts_of(rt.alloc(), MIXED, 40)?;
    for (name, pace) in &PACES {
        assert!(rt; are_answered_at(&rt, &scripts, *pace)?, "the time {name}");
    }
    Ok(())
}

/// Devices of which a call of one client's fails: of its source, or of its drain.
fn failing(broken: usize, is_source: bool, fails_at: u64, is_slow: bool) -> [Devices; 3] {
    let mut devices = [client(13, 3, is_slow); 3];
    if let Some(devices) = devices.get_mut(broken) {
        let device = if is_source {
            &mut devices.from
        } else {
            &mut devices.to
        };
        device.fails_at = fails_at;
    }
    devices
}

/// Whether the model has all requests run of those clients whose device did not fail, and that of one
/// client alone did.
fn is_alone(modelled: &[Modelled<'_>], broken: usize) -> bool {
    for (place, modelled) in modelled.iter().enumerate() {
        let has_failed = modelled.has_failed();
        if has_failed != (place == broken) || !(has_failed || modelled.is_whole()) {
            return false;
        }
    }
    true
}

/// Whether a call of a client's device failed, and no other client was cut off.
fn has_failed_alone(told: &Told, modelled: &[Modelled<'_>], broken: usize) -> Result<bool, Fail> {
    if !are_told_alike(told, modelled) {
        return Err(Fail::new("the clients were told otherwise"));
    }
    match modelled.get(broken) {
        Some(client) if !client.has_failed() => Ok(false),
        _ if is_alone(modelled, broken) => Ok(true),
        _ => Err(Fail::new("others were cut off")),
    }
}

/// The same of a case.
fn fails_alone(rt: &HostRuntime, case: &Case<'_>, broken: usize) -> Result<bool, Fail> {
    let told = told_anew(rt, case)?;
    let modelled = played_anew(rt, case)?;
    let has_failed = has_failed_alone(&told, &modelled, broken);
    drop(told);
    drop(modelled);
    has_failed
}

/// How many calls of a client's device failed, one in each case, until a case had none that did.
fn calls_of(
    rt: &HostRuntime,
    scripts: &[Script<'_>],
    broken: usize,
    is_source: bool,
    is_slow: bool,
    order: Order,
) -> Result<u64, Fail> {
    for fails_at in 1..1000u64 {
        let case = Case {
            scripts,
            devices: failing(broken, is_source, fails_at, is_slow),
            pace: Pace::Stands,
            order,
        };
        if !fails_alone(rt, &case, broken)? {
            return Ok(fails_at - 1);
        }
    }
    Err(Fail::new("no end"))
}

/// Orders of the turns, whether the devices are slow, and how many calls of each client's source and drain there
/// are then. The clients send 180, 210 and 239 bytes, thirteen at a time, and a last read finds their end. A reply goes
/// out three bytes at a time; how long it is hangs on the order. A slow device is called twice each time.
const CALLS: [(Order, bool, [(u64, u64); 3]); 2] = [
    (
        Order::Cycle([0, 1, 2]),
        false,
        [(15, 20), (18, 27), (20, 28)],
    ),
    (Order::Seed(1), true, [(30, 30), (36, 54), (40, 56)]),
];

/// Whether so many calls of each client's source and drain fail alone.
fn have_calls(
    rt: &HostRuntime,
    scripts: &[Script<'_>],
    order: Order,
    is_slow: bool,
    calls: [(u64, u64); 3],
) -> Result<bool, Fail> {
    for (broken, (reads, writes)) in calls.iter().enumerate() {
        if calls_of(rt, scripts, broken, true, is_slow, order)? != *reads
            || calls_of(rt, scripts, broken, false, is_slow, order)? != *writes
        {
            return Ok(false);
        }
    }
    Ok(true)
}

#[test]
fn a_failing_call_ends_one_connection_alone(rt: HostRuntime) -> Result<(), Fail> {
    let scripts = scripts_of(rt.alloc(), MIXED, 1)?;
    for (order, is_slow, calls) in CALLS {
        assert!(rt;
            have_calls(&rt, &scripts, order, is_slow, calls)?,
            "slow: {is_slow}"
        );
    }
    Ok(())
}
