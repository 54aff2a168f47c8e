//! Standard input with an empty buffer.

use lis_ports::{Source, StdSource};
use std::test::Fail;

#[test]
fn standard_input_gives_nothing_for_no_room(rt: HostRuntime) -> Result<(), Fail> {
    let mut source = StdSource {
        reader: rt.stdin(),
        faults: 0,
        behind: 0,
    };
    let mut buf = [0; 0];
    assert!(rt; source.take(&mut buf) == Ok(0));
    assert!(rt; source.faults == 0);
    Ok(())
}
