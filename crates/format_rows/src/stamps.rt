// Answers on stamps: the moment of a text, the text of a moment, and their order.
use crate::given::list_of;
use rows::{push_utf8, show_order};
use sm_time::{Format, Stamp, TimeRefusal};
use sm_tree::{NoMemory, Tree};
use std::alloc::Global;

fn show_time_refusal(refusal: TimeRefusal, out: &mut String) -> Result<(), NoMemory> {
    Ok(write!(out, "{refusal:?}")?)
}

pub fn stamp(format: Format, bytes: &[u8], out: &mut String) -> Result<(), NoMemory> {
    match Stamp::read(format, bytes) {
        Ok(stamp) => Ok(write!(out, "{}", stamp.milliseconds())?),
        Err(refusal) => show_time_refusal(refusal, out),
    }
}

// Writes into a full buffer, so that what is behind the text is seen too.
pub fn write_stamp(format: Format, text: &str, out: &mut String) -> Result<(), NoMemory> {
    let Ok(milliseconds) = text.parse::<i64>() else {
        return Ok(out.push_str("no number")?);
    };
    let Some(stamp) = Stamp::new(milliseconds) else {
        return Ok(out.push_str("no stamp")?);
    };
    let mut buf = [b'#'; 32];
    match stamp.write_into(format, &mut buf) {
        Ok(len) => {
            push_utf8(&buf[..len], out)?;
            if buf[len..].iter().any(|byte| *byte != b'#') {
                out.push_str(" and more")?;
            }
            if Stamp::read(format, &buf[..len]) != Ok(stamp) {
                out.push_str(" not read again")?;
            }
            Ok(())
        }
        Err(refusal) => show_time_refusal(refusal, out),
    }
}

pub fn stamp_order(alloc: Global, text: &str, out: &mut String) -> Result<(), NoMemory> {
    let Some(list) = list_of(alloc, text) else {
        return Ok(out.push_str("no list")?);
    };
    let [Tree::Int(a), Tree::Int(b)] = list.as_slice() else {
        return Ok(out.push_str("no two numbers")?);
    };
    match (Stamp::new(*a), Stamp::new(*b)) {
        (Some(a), Some(b)) => show_order(a.cmp(&b), out),
        _ => Ok(out.push_str("no two stamps")?),
    }
}
