// Lines as they are printed, put together by hand from the rules of what is printed.
use super::card::summary;
use super::out::Out;
use super::shown::line;
use memory_laws::call::Answer;
use parts::fault::{Cause, Fault};
use std::test::Fail;

#[test]
fn printed(rt: HostRuntime) -> Result<(), Fail> {
    let value = Answer::Value(18_446_744_073_709_551_615);
    let declined = Answer::Declined(Fault {
        cause: Cause::NoSuchCell,
        height: 1,
        place: 8,
    });
    let failed = Answer::Failed(Fault {
        cause: Cause::TalliesDiffer,
        height: 1,
        place: 0,
    });
    let mut out = Out::new(rt.alloc());
    line(&mut out, 9, b"read 5", &value)?;
    line(&mut out, 10, b"read  8", &declined)?;
    line(&mut out, 11, b"sweep", &failed)?;
    summary(&mut out, 8, 48, &[Answer::Passed, value, declined, failed])?;
    assert_eq!(rt;
        out.as_slice(),
        b"9 read 5: value 18446744073709551615\n\
          10 read  8: declined 1 (no such cell) at 8\n\
          11 sweep: fault 23 (tallies differ) height 1 at 0\n\
          card 8 48: calls 4, sweeps passed 1, first fault 23 (tallies differ) height 1 at 0\n"
            .as_slice()
    );
    Ok(())
}
