// Blocks as bytes, built from few numbers. Identifier n is 31 zero bytes and the byte n.
use std::alloc::{AllocError, Global};

#[derive(Clone, Copy)]
pub struct Pay {
    pub value: u64,
    pub kind: u8,
    pub argument: u64,
}

// An output of a transaction, and the badge that is shown for it.
#[derive(Clone, Copy)]
pub struct Spend {
    pub tx: u8,
    pub index: u32,
    pub badge: u64,
}

pub fn id(n: u8) -> [u8; 32] {
    let mut bytes = [0; 32];
    bytes[31] = n;
    bytes
}

// A payment to badge 7.
pub fn to_seven(value: u64) -> Pay {
    Pay {
        value,
        kind: 1,
        argument: 7,
    }
}

// A count, which is below 253 in every test.
fn write_count(to: &mut Vec<u8>, n: usize) -> Result<(), AllocError> {
    to.push(n.min(252) as u8)?;
    Ok(())
}

fn write_input(
    to: &mut Vec<u8>,
    tx: [u8; 32],
    index: u32,
    witness: &[u8],
) -> Result<(), AllocError> {
    to.extend_from_slice(&tx)?;
    to.extend_from_slice(&index.to_le_bytes())?;
    write_count(to, witness.len())?;
    to.extend_from_slice(witness)
}

fn write_outputs(to: &mut Vec<u8>, pays: &[Pay]) -> Result<(), AllocError> {
    write_count(to, pays.len())?;
    for pay in pays {
        to.extend_from_slice(&pay.value.to_le_bytes())?;
        to.push(pay.kind)?;
        to.extend_from_slice(&pay.argument.to_le_bytes())?;
    }
    Ok(())
}

// Block n after block m, up to and with its coinbase, which is transaction 100 + n.
fn write_front(
    to: &mut Vec<u8>,
    n: u8,
    after: u8,
    count: u8,
    claims: &[Pay],
) -> Result<(), AllocError> {
    to.extend_from_slice(&id(n))?;
    to.extend_from_slice(&id(after))?;
    to.push(count)?;
    to.extend_from_slice(&id(n.saturating_add(100)))?;
    write_count(to, 1)?;
    write_input(to, [0; 32], u32::MAX, &[0, 1])?;
    write_outputs(to, claims)
}

// Block n after another, with a coinbase alone.
pub fn coinbase_block(
    heap: Global,
    n: u8,
    after: u8,
    claims: &[Pay],
) -> Result<Vec<u8>, AllocError> {
    let mut block = Vec::new(heap);
    write_front(&mut block, n, after, 1, claims)?;
    Ok(block)
}

// Block n after another, with a coinbase and transaction 200 + n.
pub fn spending_block(
    heap: Global,
    n: u8,
    after: u8,
    claims: &[Pay],
    spends: &[Spend],
    pays: &[Pay],
) -> Result<Vec<u8>, AllocError> {
    let mut block = Vec::new(heap);
    write_front(&mut block, n, after, 2, claims)?;
    block.extend_from_slice(&id(n.saturating_add(200)))?;
    write_count(&mut block, spends.len())?;
    for spend in spends {
        write_input(
            &mut block,
            id(spend.tx),
            spend.index,
            &spend.badge.to_le_bytes(),
        )?;
    }
    write_outputs(&mut block, pays)?;
    Ok(block)
}

// A record of a block file: a length and a block.
pub fn write_record(file: &mut Vec<u8>, length: u32, block: &[u8]) -> Result<(), AllocError> {
    file.extend_from_slice(&length.to_le_bytes())?;
    file.extend_from_slice(block)
}
