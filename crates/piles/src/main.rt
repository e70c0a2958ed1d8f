//! Prints the levels of piles of charts over each of many messages: the names of their files come on standard input.
#![tactic(auto)]

use charts::cell::MarkedCell;
use charts::cells::Cells;
use charts::chart::Chart;
use charts::levels::write_levels;
use charts::overlay::{Overlay, Rule, hazard};
use charts::recoding::Recoding;
use charts::window::Window;
use format::fault::Fault;
use loader::holder::Loader;
use loader::packed::Packed;
use std::{fs, io};

/// A window's width, height, column and row.
#[derive(Clone, Copy)]
struct Place(usize, usize, usize, usize);

/// The windows that are laid over each field: inside it, over its sides and far outside.
const PLACES: [Place; 6] = [
    Place(12, 3, 0, 0),
    Place(4, 4, 3, 1),
    Place(1, 3, 0, 0),
    Place(5, 2, 2, 0),
    Place(6, 3, 2556, 3358),
    Place(2, 2, 16_383, 16_383),
];

/// The part of a pile that is shown.
const SHOWN: Place = Place(9, 3, 0, 0);

/// The cells of 4 by 2 that are laid over and under each field.
const OCTETS: [u8; 8] = [0, 3, 3, 255, 1, 0, 0, 7];

const MARKS: [MarkedCell; 8] = [
    MarkedCell { rain: 0, cause: 1 },
    MarkedCell { rain: 9, cause: 1 },
    MarkedCell { rain: 9, cause: 2 },
    MarkedCell { rain: 9, cause: 0 },
    MarkedCell {
        rain: 255,
        cause: 1,
    },
    MarkedCell {
        rain: 254,
        cause: 255,
    },
    MarkedCell { rain: 1, cause: 1 },
    MarkedCell { rain: 1, cause: 1 },
];

fn main(rt: HostRuntime) -> io::Result<()> {
    for line in rt.lines(rt.alloc()) {
        let name = line?;
        let octets = fs::read(&rt, name.as_str())?;
        println!(rt; "== {name}")?;
        let mut loader = Loader::new();
        if loader.load(octets.as_slice()).is_err() {
            rt.println("no message is held")?;
        } else {
            show_piles(&rt, &loader)?;
        }
    }
    Ok(())
}

/// All piles over each field, and over it and the next.
fn show_piles(rt: &impl Print, loader: &Loader<'_>) -> io::Result<()> {
    let count = loader.count();
    for k in 0..count {
        let next = (k + 1) % count;
        show_windows(rt, loader, k)?;
        show_recodings(rt, loader, k)?;
        show_overlays(rt, loader, k, next)?;
        show_cells_over(rt, loader, k)?;
        show_cells_under(rt, loader, k)?;
    }
    show_refusals(rt, loader, count)
}

/// The field's chart.
fn packed<'a>(loader: &Loader<'a>, k: usize) -> Packed<'a> {
    let mut chart = Packed::new();
    let _ = chart.open(loader, k);
    chart
}

/// The levels of a chart's part, row by row.
fn show_part<C: Chart + Drop>(
    rt: &impl Print,
    name: &str,
    chart: C,
    place: Place,
) -> io::Result<()> {
    let Place(width, height, column, row) = place;
    let mut window = Window::over(chart);
    let _ = window.place(width, height, column, row);
    show_levels(rt, name, &mut window)
}

/// The levels of a chart of at most 64 cells, row by row.
fn show_levels<C: Chart>(rt: &impl Print, name: &str, chart: &mut C) -> io::Result<()> {
    let size = chart.size();
    let mut buffer = [0u8; 64];
    println!(rt; "pile={name}")?;
    let Some(levels) = buffer.get_mut(..size.cells()) else {
        return rt.println("too large to show");
    };
    if write_levels(chart, levels).is_err() {
        return rt.println("not written");
    }
    for row in levels.chunks(size.width) {
        for level in row {
            print!(rt; "{level} ")?;
        }
        rt.println("")?;
    }
    Ok(())
}

/// Each window over a field, and the field itself after they were lent it.
fn show_windows(rt: &impl Print, loader: &Loader<'_>, k: usize) -> io::Result<()> {
    let mut chart = packed(loader, k);
    for place in PLACES {
        show_part(rt, "window", &mut chart, place)?;
    }
    show_part(rt, "field", chart, SHOWN)
}

/// A field through its lamp map, and through a map that turns some levels round.
fn show_recodings(rt: &impl Print, loader: &Loader<'_>, k: usize) -> io::Result<()> {
    if let Ok(map) = loader.lamp_map(k) {
        show_part(
            rt,
            "lamps",
            Recoding::with_map(packed(loader, k), map),
            SHOWN,
        )?;
    }
    let mut turned = Recoding::over(packed(loader, k));
    turned.set(0, 200);
    turned.set(2, 0);
    turned.set(1, 5);
    turned.set(1, 6);
    show_part(rt, "turned", turned, SHOWN)
}

/// A field over the next, by each rule and with none named.
fn show_overlays(rt: &impl Print, loader: &Loader<'_>, k: usize, next: usize) -> io::Result<()> {
    let (first, second) = (packed(loader, k), packed(loader, next));
    show_part(rt, "hazard", hazard(first, second), SHOWN)?;
    let (first, second) = (packed(loader, k), packed(loader, next));
    let mut overlay = Overlay::over(first, second);
    show_part(rt, "no rule", &mut overlay, SHOWN)?;
    overlay.set_rule(Rule::Fill);
    show_part(rt, "fill", &mut overlay, SHOWN)?;
    let (first, second) = overlay.into_charts();
    show_part(
        rt,
        "higher",
        Overlay::with_rule(second, first, Rule::Higher),
        SHOWN,
    )
}

/// A recoded part of a field over marked cells.
fn show_cells_over(rt: &impl Print, loader: &Loader<'_>, k: usize) -> io::Result<()> {
    let mut marks = Cells::new();
    let _ = marks.open(&MARKS, 4, 2);
    let mut map = Recoding::over(packed(loader, k));
    map.set(1, 4);
    map.set(2, 2);
    let mut part = Window::over(map);
    let _ = part.place(5, 3, 1, 0);
    let mut pile = Overlay::with_rule(part, marks, Rule::Fill);
    show_levels(rt, "part over marks", &mut pile)?;
    pile.set_rule(Rule::Higher);
    show_levels(rt, "part and marks", &mut pile)
}

/// Octets over a field, and a field over octets.
fn show_cells_under(rt: &impl Print, loader: &Loader<'_>, k: usize) -> io::Result<()> {
    let mut octets = Cells::new();
    let _ = octets.open(&OCTETS, 4, 2);
    let mut chart = packed(loader, k);
    let mut over = Overlay::with_rule(&mut octets, &mut chart, Rule::Fill);
    show_levels(rt, "octets over", &mut over)?;
    let under = Overlay::with_rule(&mut chart, &mut octets, Rule::Fill);
    show_part(rt, "octets under", under, SHOWN)
}

// 0 is what is printed where nothing was refused
/// The number of a refusal, or 0.
fn number(answer: Result<(), Fault>) -> u8 {
    answer.err().map_or(0, |fault| fault.number())
}

/// Calls that are refused, and what the charts show then.
fn show_refusals(rt: &impl Print, loader: &Loader<'_>, count: usize) -> io::Result<()> {
    let mut chart = packed(loader, 0);
    let missing = number(chart.open(loader, count));
    println!(rt; "open={missing}")?;
    if let Err(fault) = loader.lamp_map(count) {
        let refusal = fault.refusal();
        print!(rt; "{refusal}")?;
    }
    let mut octets = Cells::new();
    show_levels(rt, "new", &mut octets)?;
    let opened = number(octets.open(&OCTETS, 2, 4));
    for (width, height) in [(4, 3), (8, 2), (0, 8), (16_385, 1), (16_384, 2049)] {
        let refused = number(octets.open(&OCTETS, width, height));
        println!(rt; "cells={opened} {refused}")?;
    }
    let mut window = Window::over(&mut octets);
    for Place(width, height, column, row) in [
        Place(3, 2, 1, 1),
        Place(0, 1, 0, 0),
        Place(16_384, 2_049, 0, 0),
        Place(1, 1, 16_384, 0),
        Place(1, 1, 0, 16_384),
    ] {
        let placed = number(window.place(width, height, column, row));
        println!(rt; "window={placed}")?;
    }
    show_levels(rt, "kept", &mut window)?;
    show_part(rt, "field kept", chart, SHOWN)
}
