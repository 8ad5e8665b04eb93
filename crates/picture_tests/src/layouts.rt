//! Where the arrows of diagrams end, and on which lines their marks stand.
//!
//! An arrow is told as its queue, its row and its mark, and `taken`, `lost` or `way` with the row.

use crate::building::put_rows;
use diagram::{Arrow, End, Layout, Row, lay_out};
use std::alloc::Global;
use std::test::Fail;

/// The rows, the arrows, and for each row where it begins and the lines of its marks.
const LAYOUTS: &[(&[&str], &str, &str)] = &[
    (&[], "", "0"),
    // The first that was sent is the first that is taken.
    (
        &["a;SEND 0 1 0 x;SEND 0 1 0 y", "b;TAKE 0", "c;TAKE 0"],
        "0:0.0 taken 1,0:0.1 taken 2",
        "0[01] 2[] 3[] 4",
    ),
    // Queues don't wait for one another.
    (
        &["a;SEND 0 1 0 x", "b;SEND 1 0 1 y", "c;TAKE 1", "d;TAKE 0"],
        "0:0.0 taken 3,1:1.0 taken 2",
        "0[0] 1[0] 2[] 3[] 4",
    ),
    // What a row sends it doesn't take, and a row that finds nothing takes nothing.
    (
        &[
            "a;TAKE 0;SEND 0 1 0 x",
            "b;TAKE 0",
            "c;TAKE 0",
            "d;SEND 0 1 0 y",
        ],
        "0:0.0 taken 1,0:3.0 way",
        "0[1] 2[] 3[] 4[0] 5",
    ),
    // A queue that is given up: what is on its way is lost there, and what is sent later at once.
    (
        &[
            "a;SEND 0 1 0 x;SEND 0 1 0 y;SEND 0 1 0 z",
            "b;TAKE 0",
            "c;GIVE-UP 0",
            "d;SEND 0 1 0 late",
            "e;TAKE 0;GIVE-UP 0",
        ],
        "0:0.0 taken 1,0:0.1 lost 2,0:0.2 lost 2,0:3.0 lost 3",
        "0[012] 3[] 4[] 5[0] 6[] 7",
    ),
    // A row that takes the last item and gives the queue up.
    (
        &["a;SEND 0 1 7 x;SEND 0 1 7 y", "b;TAKE 7;GIVE-UP 7"],
        "7:0.0 taken 1,7:0.1 lost 1",
        "0[01] 2[] 3",
    ),
    // Marks of two lanes share their lines, and words need theirs.
    (
        &[
            "a;refused;NOTE 0 p;NOTE 1 q;NOTE 0 r",
            "b;c;d;TAKE 3;NOTE 1 s",
        ],
        "",
        "0[001] 2[1] 5",
    ),
];

fn put_arrow(out: &mut String, queue: usize, arrow: Arrow) -> Result<(), Fail> {
    if !out.is_empty() {
        out.push_str(",")?;
    }
    let (row, mark) = (arrow.row, arrow.mark);
    write!(out, "{queue}:{row}.{mark} ")?;
    match arrow.end {
        End::Taken(row) => write!(out, "taken {row}")?,
        End::Lost(row) => write!(out, "lost {row}")?,
        End::OnItsWay => out.push_str("way")?,
    }
    Ok(())
}

fn put_queue(out: &mut String, queue: usize, arrows: &[Arrow]) -> Result<(), Fail> {
    for arrow in arrows {
        put_arrow(out, queue, *arrow)?;
    }
    Ok(())
}

fn put_arrows(out: &mut String, layout: &Layout) -> Result<(), Fail> {
    for (queue, arrows) in layout.arrows.iter().enumerate() {
        put_queue(out, queue, arrows)?;
    }
    Ok(())
}

fn put_lines(out: &mut String, lines: &[usize]) -> Result<(), Fail> {
    for line in lines {
        write!(out, "{line}")?;
    }
    Ok(())
}

fn put_tops(out: &mut String, layout: &Layout) -> Result<(), Fail> {
    for (row, top) in layout.tops.iter().enumerate() {
        if row > 0 {
            out.push_str(" ")?;
        }
        write!(out, "{top}")?;
        if let Some(lines) = layout.lines.get(row) {
            out.push_str("[")?;
            put_lines(out, lines)?;
            out.push_str("]")?;
        }
    }
    Ok(())
}

// The arrows and the lines of rows, as texts.
fn told(alloc: Global, texts: &[&str]) -> Result<(String, String), Fail> {
    let mut rows: Vec<Row> = Vec::new(alloc);
    put_rows(alloc, &mut rows, texts)?;
    let layout = lay_out(alloc, &rows)?;
    let mut arrows = String::new(alloc);
    put_arrows(&mut arrows, &layout)?;
    let mut tops = String::new(alloc);
    put_tops(&mut tops, &layout)?;
    Ok((arrows, tops))
}

#[test]
fn arrows_and_lines(rt: HostRuntime) -> Result<(), Fail> {
    for (texts, arrows, tops) in LAYOUTS {
        let (found_arrows, found_tops) = told(rt.alloc(), texts)?;
        assert_eq!(rt; found_arrows.as_str(), *arrows, "arrows of {texts:?}");
        assert_eq!(rt; found_tops.as_str(), *tops, "lines of {texts:?}");
    }
    Ok(())
}
