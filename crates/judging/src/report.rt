// What is reported of a file of packets, a field at a time: the lines of its faults, `clean`, or the number that refuses it (02, A13).
ghost use Rattle.std.specs.Prelude.{◌≡◌, ◌≤◌, ◌<◌, length};
ghost use Rattle.std.proofs.lemmas.List.Edits.{sets};
ghost use Rattle.text.specs.Lines.{Put};
ghost use Rattle.judging.specs.Lines.{fault_text, refusal_text, faults_text};
ghost use Rattle.laws.specs.Refusals.{number_in};
ghost use Rattle.judging.specs.Report.{Within, fresh_report, field_number, field_of, field_out, closed_size, closed_text};

use crate::{Faults, Known};
use laws::Refusal;

// The packets judged, how many there are, the number that refuses the file or 0, and how many bytes the lines so far have. The number is public: callers read it
// and may set it, which a `Result` in its place would narrow.
#[derive(Clone, Copy)]
pub struct Report {
    pub number: u8,
    known: Known,
    packets: u16,
    size: usize,
}

// A report of no field.
pub fn open() -> Report
    ensures { (result ≡ fresh_report) × Within result }
{
    Report {
        number: 0,
        known: crate::fresh(),
        packets: 0,
        size: 0,
    }
}

// What refuses a file at the field that stands behind so many: 82, 81, 80.
fn check_field(packets: u16, field: &[u8]) -> Result<(), Refusal>
    requires { 0 < length field.now }
    ensures { number_in result ≡ field_number packets field.now }
{
    if 500 <= packets {
        return Err(Refusal::TooManyPackets);
    }
    if field[0] != 0x02 {
        return Err(Refusal::OtherTag);
    }
    if field.len() < 3 + records::pair_at(field, 1) {
        return Err(Refusal::FileCut);
    }
    Ok(())
}

// A packet's line for one fault, where it has it.
fn put_fault(holds: bool, packet: u64, name: &[u8], out: &mut [u8], at: usize) -> usize
    ensures { Put out.old at (fault_text holds packet name.now) out.new result }
{
    if !holds {
        return at;
    }
    let p = text::put_item(b"packet ", packet, out, at);
    text::put(name, out, p)
}

fn put_refusal(packet: u64, number: u8, out: &mut [u8], at: usize) -> usize
    ensures { Put out.old at (refusal_text packet number) out.new result }
{
    let p = text::put_item(b"packet ", packet, out, at);
    let q = text::put_item(b" refused ", number as u64, out, p);
    text::put(b"\n", out, q)
}

// All lines of one packet.
fn put_faults(packet: u64, faults: Faults, out: &mut [u8], at: usize) -> usize
    ensures { Put out.old at (faults_text packet faults) out.new result }
{
    if faults.refused != 0 {
        return put_refusal(packet, faults.refused, out, at);
    }
    let p = put_fault(faults.counter, packet, b" counter\n", out, at);
    let q = put_fault(faults.rate, packet, b" rate\n", out, p);
    let r = put_fault(faults.count, packet, b" count\n", out, q);
    put_fault(faults.cadence, packet, b" cadence\n", out, r)
}

// The next field, or as much of it as the file has: its lines are put behind those before. Nothing changes where the file is refused already, and by no byte.
pub fn field(r: Report, bytes: &[u8], out: &mut [u8]) -> Report
    ensures value { (result ≡ field_of r bytes.now) × (out.new ≡ field_out r bytes.now out.old) }
    ensures within { Within r → Within result }
{
    if r.number != 0 || bytes.is_empty() {
        return r;
    }
    if let Err(why) = check_field(r.packets, bytes) {
        return Report {
            number: why.number(),
            ..r
        };
    }
    let end = 3 + records::pair_at(bytes, 1);
    let judged = crate::judge(r.known, &bytes[3..end]);
    let packets = r.packets + 1;
    let size = put_faults(packets as u64, judged.faults, out, r.size);
    Report {
        number: 0,
        known: judged.known,
        packets,
        size,
    }
}

// The end of the file: the whole report stands at the front of out; the answer is how many bytes it has, 500 packets with 71 at most each.
pub fn close(r: Report, out: &mut [u8]) -> usize
    ensures value { (result ≡ closed_size r) × (out.new ≡ sets out.old 0 (closed_text r)) }
    ensures upper_bound { Within r → result ≤ 35500 }
{
    if r.number != 0 {
        return text::put_refused(r.number, out);
    }
    if r.packets == 0 {
        return text::put_refused(Refusal::FileCut.number(), out);
    }
    if r.size == 0 {
        return text::put(b"clean\n", out, 0);
    }
    r.size
}
