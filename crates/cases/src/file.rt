//! A file as the table writes it: numbers of 16 bits, `4-9` for the numbers from 4 to 9, `7*12` or `4-9*12` for these twelve times,
//! `5b` for one byte, `/` between sections.

use std::alloc::Global;

pub fn push_number(file: &mut Vec<u8>, number: u16) -> anyhow::Result<()> {
    file.extend_from_slice(&number.to_le_bytes())?;
    Ok(())
}

/// A number, or the numbers from one to another.
fn push_range(file: &mut Vec<u8>, word: &str) -> anyhow::Result<()> {
    let (first, last) = word.split_once('-').unwrap_or((word, word));
    for number in first.parse::<u16>()?..=last.parse::<u16>()? {
        push_number(file, number)?;
    }
    Ok(())
}

fn push_word(file: &mut Vec<u8>, word: &str) -> anyhow::Result<()> {
    if word == "/" {
        return Ok(());
    }
    if let Some((byte, _)) = word.split_once('b') {
        file.push(byte.parse::<u8>()?)?;
        return Ok(());
    }
    if let Some((range, times)) = word.split_once('*') {
        for _ in 0..times.parse::<u16>()? {
            push_range(file, range)?;
        }
        return Ok(());
    }
    push_range(file, word)
}

/// The bytes that the words stand for.
pub fn file_of(heap: Global, words: &str) -> anyhow::Result<Vec<u8>> {
    let mut file = Vec::new(heap);
    for word in words.split_whitespace() {
        push_word(&mut file, word)?;
    }
    Ok(file)
}
