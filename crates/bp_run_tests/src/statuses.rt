//! The numbers of the statuses.
use bp_run::Status;
use std::test::Fail;

#[test]
fn each_status_has_its_number(rt: HostRuntime) -> Result<(), Fail> {
    for (status, number) in [
        (Status::Done, 0),
        (Status::Wrong, 1),
        (Status::NotPlain, 2),
        (Status::Refused, 3),
        (Status::Fault, 4),
        (Status::CutOff, 5),
        (Status::NoMemory, 6),
        (Status::Unfinished, 7),
    ] {
        assert_eq!(rt; status.number(), number);
    }
    Ok(())
}
