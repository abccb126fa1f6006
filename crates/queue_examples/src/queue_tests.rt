// Runs of queues on examples.
use super::queue_pile::on_queue_pile;
use super::stubborn::Stubborn;
use orders::{ByFault, Earliest};
use parts::fault::{Cause, Fault, QueueFault};
use parts::order::Order;
use parts::queue::Queue;
use queue::checked::CheckedQueue;
use queue_laws::call::{Answer, Call};
use queue_run::perform;
use std::test::Fail;
use store::array::Array;

// A queue that names ticket 1 for ever.
fn naming_second() -> Stubborn {
    Stubborn {
        order: Earliest,
        ticket: 1,
    }
}

// The two keys wait as tickets 0 and 1, and ticket 1 is named.
fn named_second(first: u64, second: u64) -> Result<CheckedQueue<Stubborn>, QueueFault> {
    let mut queue = CheckedQueue::new(naming_second(), 2);
    queue.put(0, first)?;
    queue.put(1, second)?;
    let _ = queue.least()?;
    Ok(queue)
}

fn passed_over() -> QueueFault {
    QueueFault::Found(Fault {
        cause: Cause::KeyBeforeBound,
        height: 1,
        place: 0,
    })
}

fn audit_after(first: u64, second: u64) -> Result<(), QueueFault> {
    named_second(first, second)?.audit()
}

fn removal_after(first: u64, second: u64) -> Result<(), QueueFault> {
    named_second(first, second)?.remove(0)
}

#[test]
fn catches(rt: HostRuntime) {
    assert_eq!(rt; removal_after(5, 8), Err(passed_over()));
    assert_eq!(rt; audit_after(5, 8), Err(passed_over()));
    assert_eq!(rt; removal_after(8, 8), Ok(()));
    assert_eq!(rt; audit_after(8, 8), Ok(()));
    assert_eq!(rt; audit_after(9, 8), Ok(()));
}

// A ticket that was passed over shows in a list of calls too.
#[test]
fn performed(rt: HostRuntime) -> Result<(), Fail> {
    let calls = [
        Call::Put { ticket: 0, key: 5 },
        Call::Put { ticket: 1, key: 8 },
        Call::Least,
        Call::Remove { ticket: 0 },
    ];
    let (_, answers) = perform(rt.alloc(), naming_second(), 2, &calls);
    let answers = answers?;
    assert_eq!(rt; answers.get(2), Some(&Answer::Named(1)));
    assert_eq!(rt; answers.get(3), Some(&Answer::Failed(passed_over())));
    Ok(())
}

#[test]
fn faults_by_rank(rt: HostRuntime) {
    let class = 0x100_0000;
    assert!(rt; ByFault.is_before(class + 900, 5));
    assert!(rt; !ByFault.is_before(5, class + 900));
    assert!(rt; !ByFault.is_before(4 * class + 9, 7 * class + 9));
    assert!(rt; !ByFault.is_before(7 * class + 9, 4 * class + 9));
}

// Four tickets on a pile over 12 cells of 48 bits.
#[test]
fn piles(rt: HostRuntime) -> Result<(), Fail> {
    let mut words = [9u64; 12];
    let calls = [
        Call::Put { ticket: 0, key: 40 },
        Call::Put { ticket: 1, key: 30 },
        Call::Put { ticket: 2, key: 10 },
        Call::Put { ticket: 3, key: 20 },
        Call::Least,
        Call::Remove { ticket: 2 },
        Call::Least,
        Call::Remove { ticket: 1 },
        Call::Put { ticket: 1, key: 15 },
        Call::Least,
        Call::Audit,
    ];
    let answers = on_queue_pile(rt.alloc(), Array::new(&mut words, 48), Earliest, 4, &calls)?;
    assert_eq!(rt; answers.get(4), Some(&Answer::Named(2)));
    assert_eq!(rt; answers.get(6), Some(&Answer::Named(3)));
    assert_eq!(rt; answers.get(9), Some(&Answer::Named(1)));
    assert_eq!(rt; answers.get(10), Some(&Answer::Passed));
    Ok(())
}
