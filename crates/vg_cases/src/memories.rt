//! Rows: their parts, memories written as words, and texts of several lines in one row.

use std::alloc::Global;
use std::test::Fail;

/// What stands before the first arrow of a row, and what stands behind it.
pub fn cut(row: &str) -> Result<(&str, &str), Fail> {
    match row.split_once(" => ") {
        Some(parts) => Ok(parts),
        None => Err("an arrow is missing".into()),
    }
}

/// The same of a line with spaces around it.
pub fn cut_line(line: &str) -> Result<(&str, &str), Fail> {
    cut(line.trim())
}

/// The line of this text to `err`.
pub fn said(alloc: Global, text: &str) -> Result<String, Fail> {
    Ok(format!(in alloc; "vegen: {text}\n")?)
}

/// The bytes that decimal words name; `20*7` is twenty bytes 7.
pub fn bytes_of(alloc: Global, text: &str) -> Result<Vec<u8>, Fail> {
    let mut bytes = Vec::new(alloc);
    for word in text.split_whitespace() {
        match word.split_once('*') {
            Some((count, byte)) => fill(&mut bytes, count.parse::<u32>()?, byte.parse::<u8>()?)?,
            None => bytes.push(word.parse::<u8>()?)?,
        }
    }
    Ok(bytes)
}

/// Puts so many of one byte after others.
fn fill(bytes: &mut Vec<u8>, count: u32, byte: u8) -> Result<(), Fail> {
    for _ in 0..count {
        bytes.push(byte)?;
    }
    Ok(())
}

/// The text in which each `mark` of a row ends a line.
pub fn lines_of(alloc: Global, row: &str, mark: u8) -> Result<Vec<u8>, Fail> {
    let mut text = Vec::new(alloc);
    for byte in row.as_bytes() {
        text.push(if *byte == mark { b'\n' } else { *byte })?;
    }
    Ok(text)
}
