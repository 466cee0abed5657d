use crate::{all_ports, host_at};
use ft_base::HostNo;
use std::test::Fail;

#[test]
fn hosts_by_their_ports(rt: HostRuntime) -> Result<(), Fail> {
    let ports = all_ports(rt.alloc())?;
    assert!(rt; ports.as_slice().len() == 64);
    let rows = [
        (1999, None),
        (2000, Some(HostNo(0))),
        (2063, Some(HostNo(63))),
        (2064, None),
        (65_535, None),
    ];
    for (port, host) in rows {
        assert!(rt; host_at(port) == host);
    }
    Ok(())
}
