ghost use Rattle.std.specs.Prelude.{◌<◌};

use anyhow::{Result, anyhow};
use ft_base::NoMemory;
use giop_messages::{ReadFault, read_message};
use std::alloc::Global;

// A request with a body of 44 bytes.
const REQUEST: &[u8; 100] =
    b"GIOP\x01\x02\0\0\0\0\0\x58\0\0\0\x01\x03\0\0\0\0\0\0\0\0\0\0\x0cFTOG\0\0\0\0\0\0\0\x01\0\0\0\x08deposit\0\0\0\0\0\0\0\0\0\0\0\0\x05\0\0\0\0\0\0\0\0\0\0\0\0\0\0\0\0\0\0\0\0\0\0\0\0\0\0\0\0\0\0\0\0\0\0\0\0";

// A LocateRequest with a reference of 4,294,967,295 profiles, and 96 bytes of them.
const PROFILES: &[u8; 132] =
    b"GIOP\x01\x02\0\x03\0\0\0\x78\0\0\0\x09\0\x02\0\0\0\0\0\0\0\0\0\x01\0\0\0\0\xff\xff\xff\xff\0\0\0\0\0\0\0\0\0\0\0\0\0\0\0\0\0\0\0\0\0\0\0\0\0\0\0\0\0\0\0\0\0\0\0\0\0\0\0\0\0\0\0\0\0\0\0\0\0\0\0\0\0\0\0\0\0\0\0\0\0\0\0\0\0\0\0\0\0\0\0\0\0\0\0\0\0\0\0\0\0\0\0\0\0\0\0\0\0\0\0\0\0\0\0\0";

// A LocateRequest with a reference whose profile has 4,294,967,295 components, and no bytes of them.
const COMPONENTS: &[u8; 68] =
    b"GIOP\x01\x02\0\x03\0\0\0\x38\0\0\0\x09\0\x02\0\0\0\0\0\0\0\0\0\x01\0\0\0\0\0\0\0\x01\0\0\0\0\0\0\0\x18\0\x01\x02\0\0\0\0\x02h\0\x07\xd0\0\0\0\x03key\0\xff\xff\xff\xff";

// The request with a length of 4 GiB less 16 bytes at this place.
fn lengthened(alloc: Global, place: usize) -> Result<Vec<u8>, NoMemory>
    requires { place < 97 }
{
    let request = REQUEST.as_slice();
    let mut text = Vec::from_slice(alloc, &request[..place])?;
    text.extend_from_slice(b"\xff\xff\xff\xf0")?;
    text.extend_from_slice(&request[place + 4..])?;
    Ok(text)
}

fn refusal(alloc: Global, text: &[u8]) -> Result<ReadFault> {
    if text.len() > 1000 {
        return Err(anyhow!("no short message"));
    }
    match read_message(alloc, text) {
        Ok(_) => Err(anyhow!("a message was read")),
        Err(fault) => Ok(fault),
    }
}

fn run_at(rt: &HostRuntime, name: &str, place: usize) -> Result<()>
    requires { place < 97 }
{
    let text = lengthened(rt.alloc(), place).map_err(|_| anyhow!("no memory"))?;
    let fault = refusal(rt.alloc(), text.as_slice())?;
    println!(rt; "{name} of 4 GiB: {fault}")?;
    Ok(())
}

fn run_over(rt: &HostRuntime, name: &str, text: &[u8]) -> Result<()> {
    let fault = refusal(rt.alloc(), text)?;
    println!(rt; "4,294,967,295 {name}: {fault}")?;
    Ok(())
}

/// Reads messages of 100 bytes or so with a length that says about 4 GiB, or a count of about as many.
pub fn run(rt: &HostRuntime) -> Result<()> {
    run_at(rt, "size", 8)?;
    run_at(rt, "key", 24)?;
    run_at(rt, "operation", 40)?;
    run_at(rt, "contexts", 52)?;
    run_over(rt, "profiles", PROFILES.as_slice())?;
    run_over(rt, "components", COMPONENTS.as_slice())
}
