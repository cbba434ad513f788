// The first so many bytes, or all.
pub(crate) fn first<'a>(bytes: &'a [u8], count: usize) -> &'a [u8] {
    &bytes[..count.min(bytes.len())]
}
