ghost use Rattle.std.specs.Prelude.{◌≡◌, ◌<◌, ◌^◌, ◌++◌, All, Ok, OnOk, IfOk};
ghost use Rattle.std.specs.List.{flat_map};
ghost use Rattle.rv_isa.specs.Image.{IsWithin};
ghost use Rattle.rv_image.specs.Reading.{reading};
ghost use Rattle.rv_image.specs.Spelling.{spelled, function_row, item_row, line_row, header_2, IsImage2};

use crate::header::MAGIC;
use al_base::NoMemory;
use rv_isa::image::{Contents, Image, Item, LineRow, Row};
use std::alloc::Global;

/// The bytes of an image, in version 2.
pub fn write(alloc: Global, image: &Image) -> Result<Vec<u8>, NoMemory>
    ensures spelling { IfOk result (λ bytes. IsImage2 bytes.items image.now) }
    // They are read as the same image.
    ensures again { IfOk result (λ bytes. reading bytes.items ≡ Ok image.now) }
{
    write_contents(alloc, image.contents())
}

fn write_contents(alloc: Global, contents: &Contents) -> Result<Vec<u8>, NoMemory>
    requires { IsWithin contents.now }
    ensures { IfOk result (λ bytes. IsImage2 bytes.items contents.now) }
{
    let mut out = Vec::new(alloc);
    let header = header_of(contents);
    put_numbers(&mut out, &header)?;
    put_functions(&mut out, contents.functions.as_slice())?;
    put_numbers(&mut out, contents.globals.as_slice())?;
    put_items(&mut out, contents.items.as_slice())?;
    put_numbers(&mut out, contents.code.as_slice())?;
    put_lines(&mut out, contents.lines.as_slice())?;
    Ok(out)
}

fn header_of(contents: &Contents) -> [u32; 9]
    requires { IsWithin contents.now }
    ensures { result ≡ header_2 contents.now }
{
    [
        MAGIC,
        2,
        contents.code.len() as u32,
        contents.functions.len() as u32,
        contents.globals.len() as u32,
        contents.items.len() as u32,
        contents.privates,
        contents.main,
        contents.lines.len() as u32,
    ]
}

fn put_numbers(out: &mut Vec<u8>, numbers: &[u32]) -> Result<(), NoMemory>
    ensures written { OnOk result (out.new.items ≡ out.old.items ++ spelled numbers.now) }
    ensures numbers { All (λ n. n < 2 ^ 32) numbers.now }
{
    for number in numbers {
        out.extend_from_slice(&number.to_le_bytes())?;
    }
    Ok(())
}

fn put_functions(out: &mut Vec<u8>, rows: &[Row]) -> Result<(), NoMemory>
    ensures { OnOk result (out.new.items ≡ out.old.items ++ spelled (flat_map function_row rows.now)) }
{
    for row in rows {
        put_numbers(out, &[row.entry, row.slots, row.words])?;
    }
    Ok(())
}

fn put_items(out: &mut Vec<u8>, items: &[Item]) -> Result<(), NoMemory>
    ensures { OnOk result (out.new.items ≡ out.old.items ++ spelled (flat_map item_row items.now)) }
{
    for item in items {
        put_numbers(
            out,
            &[item.global, item.offset, item.size as u32, item.value],
        )?;
    }
    Ok(())
}

fn put_lines(out: &mut Vec<u8>, rows: &[LineRow]) -> Result<(), NoMemory>
    ensures { OnOk result (out.new.items ≡ out.old.items ++ spelled (flat_map line_row rows.now)) }
{
    for row in rows {
        put_numbers(out, &[row.word, row.line])?;
    }
    Ok(())
}
