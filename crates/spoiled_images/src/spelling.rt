//! Batches of records that no heap has written.
use crate::judging::{expect, poke};
use crate::reader::Verdict;
use std::alloc::{AllocError, Global};
use std::process::Abort;
use std::test::Fail;

/// Records as numbers, each with the bytes that it takes.
pub type Numbers<'a> = &'a [(usize, u64)];

/// Adds the bytes of these numbers.
pub fn spell(bytes: &mut Vec<u8>, numbers: Numbers<'_>) -> Result<(), AllocError> {
    for (size, number) in numbers {
        for byte in number.to_le_bytes().iter().take(*size) {
            bytes.push(*byte)?;
        }
    }
    Ok(())
}

/// A batch of these records with its open gate, and the next gate, which is closed.
fn batch_of(alloc: Global, records: &[u8]) -> Result<Vec<u8>, AllocError> {
    let mut batch = Vec::new(alloc);
    spell(&mut batch, &[(1, 1), (4, records.len() as u64)])?;
    batch.extend_from_slice(records)?;
    batch.push(0)?;
    Ok(batch)
}

/// The image with a batch of these records there.
pub fn with_batch(
    rt: &impl Abort,
    alloc: Global,
    image: &[u8],
    at: usize,
    records: &[u8],
) -> Result<Vec<u8>, AllocError> {
    let mut longer = image.to_vec(alloc)?;
    poke(rt, &mut longer, at, &batch_of(alloc, records)?);
    Ok(longer)
}

/// The image with a batch there of records that are these numbers.
pub fn with_numbers(
    rt: &impl Abort,
    alloc: Global,
    image: &[u8],
    at: usize,
    numbers: Numbers<'_>,
) -> Result<Vec<u8>, AllocError> {
    let mut records = Vec::new(alloc);
    spell(&mut records, numbers)?;
    with_batch(rt, alloc, image, at, &records)
}

/// Of each of these batches, put there, this is said.
pub fn expect_batches(
    rt: &impl Abort,
    alloc: Global,
    image: &[u8],
    at: usize,
    cases: &[(Numbers<'_>, Verdict)],
) -> Result<(), Fail> {
    for (case, (numbers, verdict)) in cases.iter().enumerate() {
        let longer = with_numbers(rt, alloc, image, at, numbers)?;
        expect(rt, alloc, &longer, ("batch", case, 0), *verdict)?;
    }
    Ok(())
}
