// That bytes are put behind a text where there is memory, which no contract can say.
use crate::hex::print_hex;
use std::alloc::AllocError;

// Bytes, and their hexadecimal.
const SHOWN: [(&[u8], &str); 3] = [(b"", ""), (b"\x00", "00"), (b"\x0f\xa5\xff", "0fa5ff")];

#[test]
fn bytes_are_put_behind(rt: HostRuntime) -> Result<(), AllocError> {
    for (bytes, digits) in SHOWN {
        let mut out = String::new(rt.alloc());
        print_hex(&mut out, bytes)?;
        assert_eq!(rt; out.as_str(), digits);
    }
    Ok(())
}
