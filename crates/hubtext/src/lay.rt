// The text of a hub, laid line after line into a lent buffer.
ghost use Rattle.std.specs.Prelude.{◌≡◌, ◌∷◌, [], map, length, ◌+◌, ◌*◌, ◌≤◌};
ghost use Rattle.operation.specs.Limits.{limits};
ghost use Rattle.lines.specs.Placing.{Puts};
ghost use Rattle.lines.specs.Pens.{Lays};
ghost use Rattle.lines.specs.Texts.{text_of};
ghost use Rattle.hubtext.specs.Keys.{form=, machines=, cells=};
ghost use Rattle.hubtext.specs.Values.{number, entry};
ghost use Rattle.hubtext.specs.Writing.{entry_of, entries_from, Short};
ghost use Rattle.hubtext.specs.Reading.{hub_form};
ghost use Rattle.hubtext.specs.Saving.{hub_text};

use basics::Count;
use hub::{InShape, Record, Records, ring};
use lines::put::Pen;
use lines::{COMMA, LF};

// All of it; answers how long it is.
pub fn text(h: &InShape, buf: &mut [u8]) -> usize
    ensures { Puts buf.old buf.new 0 result (hub_text limits h.now.hub) }
{
    let decided = h.decided();
    let kept = ring::kept(decided);
    let mut pen = Pen { buf, at: 0 };
    head(&mut pen, h.hub.machines, h.hub.width);
    number_lines(&mut pen, b"cell=", &h.hub.cells[..h.hub.width]);
    number_lines(&mut pen, b"next=", &h.hub.next[..h.hub.machines]);
    record_lines(&mut pen, &h.hub.records, decided - kept, kept);
    pen.at
}

// Form, machines, cells.
fn head(pen: &mut Pen, machines: usize, width: usize)
    requires { pen.old.at ≡ 0 }
    ensures upper_bound { pen.new.at ≤ 100 }
    ensures lays { let values = number form= 1 ∷ number machines= machines ∷ number cells= width ∷ [] in
        Lays pen.old pen.new (text_of (hub_form limits) values) }
{
    pen.field(b"form=", 1, LF);
    // std has no `From` here: the check proves that nothing is lost.
    pen.field(b"machines=", machines as u64, LF);
    pen.field(b"cells=", width as u64, LF);
}

// A line for each number, all with the same key. How far the pen may be is said anew in each function, since it grows along the
// text.
fn number_lines<T: Count>(pen: &mut Pen, key: &[u8], numbers: &[T])
    requires key { length key.now ≤ 9 }
    requires room { pen.old.at + 30 * length numbers.now ≤ 20_000 }
    ensures upper_bound { pen.new.at ≤ pen.old.at + 30 * length numbers.now }
    ensures lays { Lays pen.old pen.new (text_of (hub_form limits) (map (number key.now) (map T.value numbers.now))) }
{
    for n in numbers {
        pen.field(key, n.wide(), LF);
    }
}

// The `k` records from record `first` on.
fn record_lines(pen: &mut Pen, records: &Records, first: u64, k: u64)
    requires { (pen.old.at ≤ 20_000) × ((k ≤ 256) × ((first ≤ 40_000_000_000) × Short records.now first k)) }
    ensures { Lays pen.old pen.new (text_of (hub_form limits) (map entry (entries_from records.now first k))) }
{
    for n in first..first + k {
        record_line(pen, &records[ring::slot(n)]);
    }
}

fn record_line(pen: &mut Pen, r: &Record)
    requires { (pen.old.at ≤ 100_000) × (r.now.op.len ≤ limits.bytes) }
    ensures upper_bound { pen.new.at ≤ pen.old.at + 130 }
    ensures lays { Lays pen.old pen.new (text_of (hub_form limits) (entry (entry_of r.now) ∷ [])) }
{
    pen.field(b"rec=", u64::from(r.machine), COMMA);
    pen.hex(r.op.op());
    pen.byte(LF);
}
