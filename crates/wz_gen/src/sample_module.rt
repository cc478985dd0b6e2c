//! The bytes of the sample module.

ghost use Rattle.std.specs.Prelude.{◌≡◌, ◌≤◌, ◌<◌, ◌^◌, ◌++◌, length, IfOk, OnOk};
ghost use Rattle.wz_gen.specs.Sample.{next_draw, sample_constant, sample_store, sample_stores};
ghost use Rattle.wz_gen.specs.Sample.{sample_body, sample_section, sample_export, sample_exports};
ghost use Rattle.wz_gen.specs.Sample.{sample_definitions, sample_code, sample_bytes};

use std::alloc::{AllocError, Global};
use wz_bytes::{put_signed, put_unsigned};

const I32_CONST: u8 = 0x41;

const GLOBAL_SET: u8 = 0x24;

const I32_STORE8: u8 = 0x3A;

const END: u8 = 0x0B;

/// Magic and version, section 5.5.16 of the Core Specification.
const HEADER: [u8; 8] = [0x00, 0x61, 0x73, 0x6D, 0x01, 0x00, 0x00, 0x00];

/// No store takes more bytes than these: two opcodes with a number of at most three bytes and of at
/// most two, and the store itself.
const STORE_BYTES: usize = 10;

/// The bytes of a body without its stores, at most.
const BODY_BYTES: usize = 16;

/// The bytes of an id and a size, at most.
const LONGEST_HEAD: usize = 11;

/// The sample module of a number: it has 16 pages of memory, stores `number` bytes into them and
/// ends with the number in its global.
#[tactic(auto, unfolding(crate::specs::Sample::sample_bytes))]
pub fn sample(alloc: Global, number: u32) -> Result<Vec<u8>, AllocError>
    requires { number ≤ 1000000 }
    ensures { IfOk result (λ bytes. bytes.items ≡ sample_bytes number) }
{
    let mut out = Vec::new(alloc);
    out.extend_from_slice(&HEADER)?;
    put_definitions(&mut out)?;
    let exports = exports(alloc)?;
    put_section(&mut out, 7, &exports)?;
    let code = code(alloc, number)?;
    put_section(&mut out, 10, &code)?;
    Ok(out)
}

/// Appends the type, function, memory and global sections.
#[tactic(auto, unfolding(crate::specs::Sample::sample_definitions))]
fn put_definitions(out: &mut Vec<u8>) -> Result<(), AllocError>
    ensures { OnOk result (out.new.items ≡ out.old.items ++ sample_definitions) }
{
    put_section(out, 1, &[0x01, 0x60, 0x00, 0x00])?;
    put_section(out, 3, &[0x01, 0x00])?;
    put_section(out, 5, &[0x01, 0x01, 0x10, 0x10])?;
    put_section(out, 6, &[0x01, 0x7F, 0x01, I32_CONST, 0x00, END])
}

/// Appends a section, with one growth of the bytes at most.
#[tactic(auto, unfolding(crate::specs::Sample::sample_section))]
fn put_section(out: &mut Vec<u8>, id: u8, contents: &[u8]) -> Result<(), AllocError>
    ensures { OnOk result (out.new.items ≡ out.old.items ++ sample_section id contents.now) }
{
    out.try_reserve(contents.len().saturating_add(LONGEST_HEAD))?;
    out.push(id)?;
    put_unsigned(out, contents.len() as u64)?;
    out.extend_from_slice(contents)
}

/// The contents of the export section.
#[tactic(auto, unfolding(crate::specs::Sample::sample_exports))]
fn exports(alloc: Global) -> Result<Vec<u8>, AllocError>
    ensures { IfOk result (λ bytes. bytes.items ≡ sample_exports) }
{
    let mut out = Vec::new(alloc);
    out.push(0x03)?;
    put_export(&mut out, "wizer.initialize", 0x00)?;
    put_export(&mut out, "memory", 0x02)?;
    put_export(&mut out, "count", 0x03)?;
    Ok(out)
}

/// Appends an export of the first item of a kind.
#[tactic(auto, unfolding(crate::specs::Sample::sample_export))]
fn put_export(out: &mut Vec<u8>, name: &str, kind: u8) -> Result<(), AllocError>
    ensures { OnOk result (out.new.items ≡ out.old.items ++ sample_export name.now kind) }
{
    put_unsigned(out, name.len() as u64)?;
    out.extend_from_slice(name.as_bytes())?;
    out.extend_from_slice(&[kind, 0x00])
}

/// The contents of the code section.
#[tactic(auto, unfolding(crate::specs::Sample::sample_code))]
fn code(alloc: Global, number: u32) -> Result<Vec<u8>, AllocError>
    requires { number ≤ 1000000 }
    ensures { IfOk result (λ bytes. bytes.items ≡ sample_code number) }
{
    let body = body(alloc, number)?;
    let mut out = Vec::with_capacity(alloc, body.len().saturating_add(LONGEST_HEAD))?;
    out.push(0x01)?;
    put_unsigned(&mut out, body.len() as u64)?;
    out.extend_from_slice(&body)?;
    Ok(out)
}

/// The function's locals and instructions.
#[tactic(auto, unfolding(crate::specs::Sample::sample_body))]
fn body(alloc: Global, number: u32) -> Result<Vec<u8>, AllocError>
    requires { number ≤ 1000000 }
    ensures { IfOk result (λ bytes. bytes.items ≡ sample_body number) }
{
    let mut out = Vec::with_capacity(alloc, number as usize * STORE_BYTES + BODY_BYTES)?;
    out.push(0x00)?;
    put_stores(&mut out, number)?;
    put_constant(&mut out, number)?;
    out.extend_from_slice(&[GLOBAL_SET, 0x00, END])?;
    Ok(out)
}

/// Appends the stores, one for each number that is drawn behind the sample's own.
fn put_stores(out: &mut Vec<u8>, number: u32) -> Result<(), AllocError>
    requires { number ≤ 1000000 }
    ensures { OnOk result (out.new.items ≡ out.old.items ++ sample_stores number number) }
{
    let mut draw = number;
    for stored in 0..number {
        draw = next_draw(draw);
        put_store(out, draw)?;
    }
    Ok(())
}

/// The number behind another, by a linear congruence modulo 2^31.
fn next_draw(draw: u32) -> u32
    requires { draw < 2 ^ 31 }
    ensures value { result ≡ next_draw draw }
    ensures below { result < 2 ^ 31 }
{
    ((u64::from(draw) * 1_103_515_245 + 12_345) % (1 << 31)) as u32
}

/// Appends a store of one byte.
#[tactic(auto, unfolding(crate::specs::Sample::sample_store))]
fn put_store(out: &mut Vec<u8>, draw: u32) -> Result<(), AllocError>
    ensures { OnOk result (out.new.items ≡ out.old.items ++ sample_store draw) }
{
    put_constant(out, draw / 256 % 1_048_576)?;
    put_constant(out, 1 + draw % 255)?;
    out.extend_from_slice(&[I32_STORE8, 0x00, 0x00])
}

/// Appends an `i32.const` of a number without a sign.
fn put_constant(out: &mut Vec<u8>, number: u32) -> Result<(), AllocError>
    ensures { OnOk result (out.new.items ≡ out.old.items ++ sample_constant number) }
{
    out.push(I32_CONST)?;
    put_signed(out, i64::from(number))
}
