//! Prints what each of many messages gives: the names of their files come on standard input.
#![tactic(auto)]

use listing::listing::listing_of;
use loader::holder::Loader;
use messages::field::Field;
use sections::frame::{Frame, Position};
use sections::identification::Identification;
use sections::packing::Value;
use std::{fs, io};

fn main(rt: HostRuntime) -> io::Result<()> {
    for line in rt.lines(rt.alloc()) {
        let name = line?;
        let octets = fs::read(&rt, name.as_str())?;
        let text = listing_of(octets.as_slice());
        print!(rt; "== {name}\n{text}")?;
        show_message(&rt, octets.as_slice())?;
    }
    Ok(())
}

/// The identification, and the parts, values and positions of each field.
fn show_message(rt: &impl Print, octets: &[u8]) -> io::Result<()> {
    let mut loader = Loader::new();
    let _ = loader.load(octets);
    let Some(identification) = loader.identification() else {
        return rt.println("no message is held");
    };
    show_identification(rt, &identification)?;
    for (k, field) in loader.fields().enumerate() {
        show_field(rt, &field)?;
        show_values(rt, &loader, k, field.packing.most())?;
        show_positions(rt, &loader, k, field.frame)?;
    }
    match loader.field(loader.count()) {
        Ok(_) => rt.println("a field too many"),
        Err(fault) => println!(rt; "refused={}", fault.number()),
    }
}

fn show_identification(rt: &impl Print, i: &Identification) -> io::Result<()> {
    println!(rt; "centre={}\nsubcentre={}", i.centre, i.subcentre)?;
    println!(rt;
        "tables={}\nlocal={}\nmeaning={}",
        i.tables, i.local, i.meaning
    )?;
    println!(rt; "year={}\nmonth={}\nday={}", i.year, i.month, i.day)?;
    println!(rt; "hour={}\nminute={}\nsecond={}", i.hour, i.minute, i.second)?;
    println!(rt; "status={}\nkind={}", i.status, i.kind)
}

fn show_field(rt: &impl Print, field: &Field<&[u8]>) -> io::Result<()> {
    let f = field.frame;
    println!(rt; "ni={}\nnj={}", f.ni, f.nj)?;
    println!(rt;
        "la1={}\nlo1={}\nla2={}\nlo2={}",
        f.la1, f.lo1, f.la2, f.lo2
    )?;
    println!(rt; "di={}\ndj={}\nproduct={}", f.di, f.dj, field.product.len())?;
    let packing = field.packing;
    println!(rt;
        "v={}\nm={}\ne={}",
        packing.v,
        packing.most().min(255),
        packing.scale
    )
}

fn show_values(rt: &impl Print, loader: &Loader<'_>, k: usize, most: usize) -> io::Result<()> {
    let m = most.min(254) as u8;
    for level in [0, 1, m / 2, m, m + 1] {
        if let Ok(Some(Value { number, scale })) = loader.value(k, level) {
            println!(rt; "level={level}\nvalue={number}\nscale={scale}")?;
        } else {
            println!(rt; "level without value={level}")?;
        }
    }
    Ok(())
}

fn show_positions(rt: &impl Print, loader: &Loader<'_>, k: usize, frame: Frame) -> io::Result<()> {
    let Frame { ni, nj, .. } = frame;
    let (east, south) = (ni.saturating_sub(1), nj.saturating_sub(1));
    for (column, row) in [(0, 0), (ni / 2, nj / 2), (east, south), (ni, 0), (0, nj)] {
        println!(rt; "column={column}\nrow={row}")?;
        if let Ok(
            Some(
                Position {
                    latitude,
                    longitude,
                },
            ),
        ) = loader.position(k, column, row)
        {
            println!(rt; "latitude={latitude}\nlongitude={longitude}")?;
        }
    }
    Ok(())
}
