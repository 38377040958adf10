// Captured bytes, read from hexadecimal text.
use hex_text::Fault;
use std::io;
use thiserror::Error;

// Why there are no captured bytes.
#[derive(Debug, Drop, Error)]
pub enum CaptureError {
    // The first line of text that is bad, counted from 1.
    #[error("line {line}, {fault}")]
    BadText { line: usize, fault: Fault },
    #[error(transparent)]
    Io(#[from] io::Error),
}

// Reads the whole standard input: the bytes of all lines of text, joined.
pub fn read_all(rt: &HostRuntime) -> Result<Vec<u8>, CaptureError> {
    let mut bytes = Vec::new(rt.alloc());
    for (line, text) in (1..).zip(rt.lines(rt.alloc())) {
        let text = text?;
        hex_text::read_line(text.as_bytes(), &mut bytes).map_err(|fault| CaptureError::BadText {
            line,
            fault,
        })?;
    }
    Ok(bytes)
}
