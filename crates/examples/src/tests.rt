// Runs on examples: what is proved of the definitions is seen of the compiled code.
use super::pile::on_pile;
use memory::checked::CheckedMemory;
use memory_laws::call::{Answer, Call};
use memory_run::perform;
use parts::fault::{Cause, Fault};
use parts::store::Store;
use parts::tally::Tally;
use std::test::Fail;
use store::altering::Altering;
use store::array::Array;
use store::replay::Replay;
use store_laws::Alteration;
use tallies::{Sum, Xor, mix};

// Mixes and tallies that were worked out apart from this text.
#[test]
fn mixes(rt: HostRuntime) {
    assert_eq!(rt; mix(0, 1), 0xab16_9eb8_05b8_c71c);
    assert_eq!(rt;
        mix(0x0123_4567_89ab_cdef, 844_425_467_002_889),
        0x9a14_2515_e4c3_14b2
    );
    assert_eq!(rt;
        mix(0xffff_ffff_ffff_ffff, 1_152_921_504_606_846_975),
        0xf783_354e_7000_0000
    );
}

fn three<T: Tally>(tally: &T) -> T::Value {
    tally.add(
        tally.add(tally.add(tally.start(), 0), 281_474_976_710_656),
        844_425_467_002_889,
    )
}

#[test]
fn tallied(rt: HostRuntime) {
    assert_eq!(rt; three(&Sum { key: 0x5_deec_e66d }), 0x32c9_9076_8311_4576);
    assert_eq!(rt; three(&Xor { key: 0x5_deec_e66d }), 0x53f7_9f6b_bce9_2f6e);
}

fn fault(cause: Cause, height: u8, place: u64) -> Fault {
    Fault {
        cause,
        height,
        place,
    }
}

// A read and a sweep of a memory over recorded words, 4 cells of 48 bits.
fn replayed(words: &[u64], cell: u64) -> Result<u64, Fault> {
    let mut memory = CheckedMemory::new(Replay::new(words, 4, 48), Sum { key: 7 });
    let value = memory.read(cell)?;
    memory.sweep()?;
    Ok(value)
}

#[test]
fn replays(rt: HostRuntime) {
    let one = 1 << 28;
    assert_eq!(rt; replayed(&[0, 0, one, 0, 0], 1), Ok(0));
    assert_eq!(rt;
        replayed(&[0, 0, 0, 0, 0], 1),
        Err(fault(Cause::TalliesDiffer, 1, 0))
    );
    assert_eq!(rt; replayed(&[one], 1), Err(fault(Cause::StampAhead, 1, 1)));
    assert_eq!(rt;
        replayed(&[1 << 48], 2),
        Err(fault(Cause::WiderThanStore, 1, 2))
    );
    assert_eq!(rt; replayed(&[0, 0], 1), Err(fault(Cause::ReplayEnded, 0, 1)));
    assert_eq!(rt; replayed(&[], 4), Err(fault(Cause::NoSuchCell, 1, 4)));
}

// Cells of 48 bits leave 8 for a value under two checks.
#[test]
fn piles(rt: HostRuntime) -> Result<(), Fail> {
    let mut words = [5u64; 4];
    let calls = [
        Call::Write {
            cell: 2,
            value: 200,
        },
        Call::Read { cell: 2 },
        Call::Sweep,
        Call::Read { cell: 4 },
        Call::Write {
            cell: 1,
            value: 256,
        },
    ];
    let answers = on_pile(rt.alloc(), Array::new(&mut words, 48), &calls)?;
    assert_eq!(rt; answers.get(1), Some(&Answer::Value(200)));
    assert_eq!(rt; answers.get(2), Some(&Answer::Passed));
    assert_eq!(rt;
        answers.get(3),
        Some(&Answer::Declined(fault(Cause::NoSuchCell, 2, 4)))
    );
    assert_eq!(rt;
        answers.get(4),
        Some(&Answer::Declined(fault(Cause::WordTooWide, 2, 1)))
    );
    Ok(())
}

// The store's words after the making, a write and a stale word put back: 1 cell of 21 bits, so values of 1 bit.
#[test]
fn words_left(rt: HostRuntime) -> Result<(), Fail> {
    let mut words = [9u64; 1];
    let calls = [Call::Write { cell: 0, value: 1 }];
    let (mut store, answers) = perform(
        rt.alloc(),
        Array::new(&mut words, 21),
        Sum { key: 0 },
        &calls,
    );
    let _ = answers?;
    assert_eq!(rt; store.read(0), Ok(3));
    Ok(())
}

// An alteration comes after its number of accesses and before the next.
#[test]
fn alters(rt: HostRuntime) {
    let mut words = [0u64; 2];
    let coming = [Alteration {
        after: 1,
        cell: 1,
        word: 7,
    }];
    let mut store = Altering::new(Array::new(&mut words, 8), &coming);
    assert_eq!(rt; store.read(1), Ok(0));
    assert_eq!(rt; store.read(1), Ok(7));
}

// As many writes as the clock can count, and two more: a sweep comes before the last but one. The making is one access and
// each write two, so an alteration after 2,097,151 accesses falls right before that sweep.
#[test]
fn sweeps_at_clock_end(rt: HostRuntime) -> Result<(), Fail> {
    let calls = vec![in rt.alloc(); Call::Write { cell: 0, value: 1 }; 1_048_577]?;
    let mut words = [0u64; 1];
    let (_, honest) = perform(
        rt.alloc(),
        Array::new(&mut words, 21),
        Sum { key: 3 },
        calls.as_slice(),
    );
    let honest = honest?;
    assert_eq!(rt; honest.get(1_048_576), Some(&Answer::Written));
    let mut words = [0u64; 1];
    let coming = [Alteration {
        after: 2_097_151,
        cell: 0,
        word: 0,
    }];
    let store = Altering::new(Array::new(&mut words, 21), &coming);
    let (_, altered) = perform(rt.alloc(), store, Sum { key: 3 }, calls.as_slice());
    let altered = altered?;
    assert_eq!(rt; altered.get(1_048_574), Some(&Answer::Written));
    assert_eq!(rt;
        altered.get(1_048_575),
        Some(&Answer::Failed(fault(Cause::TalliesDiffer, 1, 0)))
    );
    Ok(())
}
