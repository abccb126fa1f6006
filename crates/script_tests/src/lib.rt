// Scripts read as sections, on examples.
#![tactic(auto)]

#[cfg(test)]
mod tests {
    use script::section::{Section, parse};
    use std::process::Abort;
    use std::test::Fail;

    // The last section of the script is spoilt by this line, for this reason.
    fn spoilt(
        rt: &(impl Abort + AllocGlobal),
        script: &str,
        line: u64,
        reason: &str,
    ) -> Result<(), Fail> {
        let sections = parse(rt.alloc(), script.as_bytes())?;
        match sections.as_slice().last() {
            Some(Err(bad)) => {
                assert_eq!(rt; bad.line, line, "{script}");
                assert_eq!(rt; bad.reason.text(), reason, "{script}");
                Ok(())
            }
            _ => Err(Fail::new(script)),
        }
    }

    // The last section of the script makes sense, and has so many calls.
    fn read(rt: &(impl Abort + AllocGlobal), script: &str, calls: usize) -> Result<(), Fail> {
        let sections = parse(rt.alloc(), script.as_bytes())?;
        match sections.as_slice().last() {
            Some(Ok(Section::Card(plan))) => {
                assert_eq!(rt; plan.calls.as_slice().len(), calls, "{script}");
                Ok(())
            }
            _ => Err(Fail::new(script)),
        }
    }

    #[test]
    fn words_that_are_wrong(rt: HostRuntime) -> Result<(), Fail> {
        spoilt(&rt, "card 4 48\nsweeps\n", 2, "unknown word")?;
        spoilt(&rt, "card 4 48\nCard 4 48\n", 2, "unknown word")?;
        spoilt(&rt, "card 4 48\ntally add 0\n", 2, "unknown word")?;
        spoilt(&rt, "card 4", 1, "a word is missing")?;
        spoilt(&rt, "card 4 48\n\nwrite 1", 3, "a word is missing")?;
        spoilt(&rt, "card 4 48\ntally sum", 2, "a word is missing")?;
        spoilt(&rt, "card 4 48\nalter 1 2", 2, "a word is missing")?;
        spoilt(&rt, "card 4 48 1\n", 1, "a word too many")?;
        spoilt(&rt, "card 4 48\nsweep 1\n", 2, "a word too many")?;
        spoilt(&rt, "card 4 48\nread 1 # one\n", 2, "a word too many")
    }

    #[test]
    fn numbers_that_are_none(rt: HostRuntime) -> Result<(), Fail> {
        spoilt(&rt, "card 4 x", 1, "not a number of 64 bits")?;
        spoilt(&rt, "card 4 48\nread +1", 2, "not a number of 64 bits")?;
        spoilt(&rt, "card 4 48\nread 1a", 2, "not a number of 64 bits")?;
        spoilt(
            &rt,
            "card 4 48\nread 18446744073709551616",
            2,
            "not a number of 64 bits",
        )?;
        read(&rt, "card 4 48\nread 18446744073709551615", 1)?;
        read(&rt, "card 4 48\nread 0000000000000000000000001", 1)?;
        spoilt(
            &rt,
            "card 4 48\ntally xor 12345678901234567",
            2,
            "not a key of 1 to 16 hexadecimal digits",
        )?;
        spoilt(
            &rt,
            "card 4 48\ntally xor 0x1",
            2,
            "not a key of 1 to 16 hexadecimal digits",
        )?;
        read(&rt, "card 4 48\ntally xor ffffFFFF00000000\nsweep", 1)
    }

    #[test]
    fn lines_out_of_place(rt: HostRuntime) -> Result<(), Fail> {
        spoilt(&rt, "# nothing yet\nread 1\n", 2, "no section has begun")?;
        spoilt(&rt, "tally sum 1\ntally sum 1\n", 1, "no section has begun")?;
        spoilt(
            &rt,
            "card 4 48\nread 1\ntally sum 1\n",
            3,
            "a setting after the first call",
        )?;
        spoilt(
            &rt,
            "card 4 48\nread 1\nalter 1 1 1\n",
            3,
            "a setting after the first call",
        )?;
        spoilt(
            &rt,
            "card 4 48\ntally sum 1\ntally sum 1\n",
            3,
            "a setting given twice",
        )?;
        spoilt(
            &rt,
            "card 4 48\nalter 5 1 1\nalter 4 1 1\n",
            3,
            "alterations not by rising AFTER",
        )?;
        read(&rt, "card 4 48\nalter 5 1 1\nalter 5 2 2\nsweep\n", 1)
    }

    #[test]
    fn only_the_first_bad_line_counts(rt: HostRuntime) -> Result<(), Fail> {
        spoilt(
            &rt,
            "card 4 48\nsweep\nbogus\nread\nsweep\n",
            3,
            "unknown word",
        )?;
        spoilt(&rt, "card 4\nbogus\n", 1, "a word is missing")?;
        read(
            &rt,
            "card 4\ncard 4 48\n read 1 \n\t# a comment\n\r\n  sweep",
            2,
        )
    }
}
