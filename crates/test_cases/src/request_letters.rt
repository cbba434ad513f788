// Cases of requests.
use super::outputs::Shown;
use std::io;

pub(crate) fn reads(rt: &impl Print, bytes: &[u8]) -> io::Result<()> {
    requests::read(bytes).print(rt)
}
