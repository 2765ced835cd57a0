//! Sheets, good and damaged, read by the library: each prints how many links were read, and the head or the fault.

#![tactic(auto)]

use text::read::read_sheet;
use text::sheet::{Head, SheetLink};

/// Reads one sheet into memory for so many links, and prints what came of it.
fn show(rt: &HostRuntime, name: &str, sheet: &[u8], room: usize) -> anyhow::Result<()> {
    let mut links = vec![in rt.alloc(); SheetLink::default(); room]?;
    let reading = read_sheet(sheet, &mut links);
    let count = reading.links;
    match reading.outcome {
        Ok(Head { book, stations }) => println!(rt;
            "{name}: {count} links, book {book}, {stations} stations"
        )?,
        Err(fault) => println!(rt; "{name}: {count} links, {fault}")?,
    }
    Ok(())
}

/// The same of a sheet of five stations with these lines of links.
fn links(rt: &HostRuntime, name: &str, lines: &[u8], room: usize) -> anyhow::Result<()> {
    let mut sheet = Vec::new(rt.alloc());
    sheet.extend_from_slice(b"book;stations\n7;5\n\nfrom;to;ns;state\n")?;
    sheet.extend_from_slice(lines)?;
    show(rt, name, &sheet, room)
}

fn words(rt: &HostRuntime) -> anyhow::Result<()> {
    links(rt, "an empty word for a number", b"0;;3;in\n", 4)?;
    links(rt, "no digit", b"0;x;3;in\n", 4)?;
    links(rt, "a leading zero", b"0;1;3;in\n1;2;04;in\n", 4)?;
    links(rt, "twenty digits", b"0;1;18446744073709551616;in\n", 4)?;
    links(rt, "digits and then a letter", b"0;1;99999999999x;in\n", 4)?;
    links(rt, "the largest number", b"0;1;4294967295;in\n", 4)?;
    links(rt, "one more than that", b"0;1;4294967296;in\n", 4)?;
    links(rt, "a point", b"0;1;2.5;in\n", 4)?;
    links(rt, "a byte above 127", b"0;\xb9;3;in\n", 4)?;
    links(rt, "a carriage return at the end", b"0;1;3;in\r\n", 4)?;
    links(rt, "a bad state", b"0;1;3;IN\n", 4)?;
    links(rt, "an empty state", b"0;1;3;\n", 4)?;
    links(rt, "the left word first", b"x;y;z;w\n", 4)?;
    Ok(())
}

fn lines(rt: &HostRuntime) -> anyhow::Result<()> {
    links(rt, "too few words", b"0;1;3\n", 4)?;
    links(rt, "too many words", b"0;1;3;in;9\n", 4)?;
    links(rt, "a last empty word too many", b"0;1;3;in;\n", 4)?;
    show(
        rt,
        "names in another order",
        b"stations;book\n5;7\n\nns;state;to;from\n3;off;1;0\n",
        4,
    )?;
    show(rt, "a name of another table", b"book;from\n7;5\n", 4)?;
    show(
        rt,
        "a name twice",
        b"book;stations\n7;5\n\nfrom;to;from;state\n",
        4,
    )?;
    show(rt, "an empty name", b"book;\n7;5\n", 4)?;
    show(rt, "too few names", b"book\n7;5\n", 4)?;
    show(rt, "too many names", b"book;stations;more\n7;5\n", 4)?;
    links(
        rt,
        "names again where values are due",
        b"from;to;ns;state\n",
        4,
    )?;
    Ok(())
}

fn tables(rt: &HostRuntime) -> anyhow::Result<()> {
    show(rt, "an empty text", b"", 4)?;
    show(rt, "a line feed alone", b"\n", 4)?;
    show(rt, "a carriage return alone", b"\r", 4)?;
    show(rt, "names alone", b"book;stations\n", 4)?;
    show(rt, "an empty line for the values", b"book;stations\n\n", 4)?;
    show(rt, "the end before the divider", b"book;stations\n7;5", 4)?;
    show(
        rt,
        "two lines of values for the book",
        b"book;stations\n7;5\n8;5\n",
        4,
    )?;
    show(
        rt,
        "the end before the second table",
        b"book;stations\n7;5\n\n",
        4,
    )?;
    show(
        rt,
        "two dividers",
        b"book;stations\n7;5\n\n\nfrom;to;ns;state\n",
        4,
    )?;
    Ok(())
}

fn last_lines(rt: &HostRuntime) -> anyhow::Result<()> {
    links(rt, "no link", b"", 4)?;
    show(
        rt,
        "no link and no last line feed",
        b"book;stations\n7;5\n\nfrom;to;ns;state",
        4,
    )?;
    links(rt, "no last line feed", b"0;1;3;in", 4)?;
    links(rt, "an empty line among the links", b"0;1;3;in\n\n", 4)?;
    links(rt, "more links than memory", b"0;1;3;in\n1;2;4;in\n", 1)?;
    links(
        rt,
        "an empty line where the memory is full",
        b"0;1;3;in\n\n",
        1,
    )?;
    links(
        rt,
        "one link too many, and too many words",
        b"0;1;3;in\n1;2;4;in;9\n",
        1,
    )?;
    Ok(())
}

fn books(rt: &HostRuntime) -> anyhow::Result<()> {
    show(
        rt,
        "no stations",
        b"stations;book\n0;7\n\nfrom;to;ns;state\n",
        4,
    )?;
    show(
        rt,
        "513 stations",
        b"book;stations\n7;513\n\nfrom;to;ns;state\n",
        4,
    )?;
    show(
        rt,
        "512 stations",
        b"book;stations\n4294967295;512\n\nfrom;to;ns;state\n0;511;4294967295;off\n",
        4,
    )?;
    links(rt, "both ends no stations", b"9;5;3;in\n", 4)?;
    show(
        rt,
        "the left end of two",
        b"book;stations\n7;5\n\nto;from;ns;state\n9;5;3;in\n",
        4,
    )?;
    links(rt, "the second end", b"0;5;3;in\n", 4)?;
    links(rt, "equal ends", b"0;1;3;in\n2;2;0;off\n", 4)?;
    links(rt, "no delay", b"0;1;0;in\n", 4)?;
    show(
        rt,
        "a line at fault comes first",
        b"book;stations\n7;0\n\nfrom;to;ns;state\n0;0;0;up\n",
        4,
    )?;
    Ok(())
}

/// Texts of the longest size and one byte more: names, and then a last line of one long word.
fn lengths(rt: &HostRuntime) -> anyhow::Result<()> {
    for longest in [65536usize, 65537] {
        let mut sheet = Vec::new(rt.alloc());
        sheet.extend_from_slice(b"book;stations\n")?;
        sheet.resize(longest, b'9')?;
        show(rt, "a long text", &sheet, 0)?;
    }
    Ok(())
}

/// 2,048 and 2,049 links.
fn sizes(rt: &HostRuntime) -> anyhow::Result<()> {
    for links in [2048usize, 2049] {
        let mut sheet = Vec::new(rt.alloc());
        sheet.extend_from_slice(b"book;stations\n7;2\n\nfrom;to;ns;state\n")?;
        for _ in 0..links {
            sheet.extend_from_slice(b"0;1;3;in\n")?;
        }
        show(rt, "many links", &sheet, 4096)?;
    }
    Ok(())
}

fn main(rt: HostRuntime) -> anyhow::Result<()> {
    words(&rt)?;
    lines(&rt)?;
    tables(&rt)?;
    last_lines(&rt)?;
    books(&rt)?;
    lengths(&rt)?;
    sizes(&rt)?;
    Ok(())
}
