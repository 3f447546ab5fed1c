// The order of values, and when two are the same: by what kind of value they are, and then by their content.
ghost use Rattle.std.specs.Prelude.{◌≡◌, ◌↔◌, IsTrue};
ghost use Rattle.std.specs.Cmp.Lexicographic.{slice_cmp};
ghost use Rattle.std.specs.Ordering.{nat_cmp, ordering_then};
ghost use Rattle.sm_shapes.specs.Values.{bool_val, int_val, text_val, blob_val, time_val, vals_of, entries_of, fields_of};
ghost use Rattle.sm_shapes.specs.ValueView.{val_of, vals_view, each_entry_view, each_field_view};
ghost use Rattle.sm_shapes.specs.ValueOrder.{val_cmp, val_rank, vals_cmp, entries_cmp, fields_cmp};

use crate::values::Value;
use sm_time::Stamp;
use sm_tree::Text;
use std::cmp::Ordering;

impl Value {
    /// The order of two values, which is total: `Equal` where they are the same. Of lists, maps and structures the first part that differs
    /// decides. Time as the parts that are the same. No memory.
    pub fn compare(&self, other: &Value) -> Ordering
        ensures { result ≡ val_cmp (val_of self.now) (val_of other.now) }
    {
        order_of(self, other)
    }

    /// Whether two values are the same, part by part. No memory.
    pub fn is_same(&self, other: &Value) -> bool
        ensures { IsTrue result ↔ (val_of self.now ≡ val_of other.now) }
    {
        order_of(self, other).is_eq()
    }
}

#[cycle(order)]
fn order_of(a: &Value, b: &Value) -> Ordering
    ensures { result ≡ val_cmp (val_of a.now) (val_of b.now) }
{
    match a {
        Value::Null => order_of_kinds(0, b),
        Value::Bool(truth) => order_of_bool(*truth, b),
        Value::Int(number) => order_of_int(*number, b),
        Value::Text(text) => order_of_text(text.as_str(), b),
        Value::Blob(bytes) => order_of_blob(bytes.as_slice(), b),
        Value::Time(stamp) => order_of_time(*stamp, b),
        Value::List(items) => match b {
            Value::List(others) => order_of_items(items.as_slice(), others.as_slice()),
            _ => order_of_kinds(6, b),
        },
        Value::Map(entries) => match b {
            Value::Map(others) => order_of_entries(entries.as_slice(), others.as_slice()),
            _ => order_of_kinds(7, b),
        },
        Value::Structure(fields) => match b {
            Value::Structure(others) => order_of_fields(fields.as_slice(), others.as_slice()),
            _ => order_of_kinds(8, b),
        },
        Value::Union(member, content) => match b {
            Value::Union(other, inner) => match member.cmp(other) {
                Ordering::Equal => order_of(content, inner),
                order => order,
            },
            _ => order_of_kinds(9, b),
        },
    }
}

// By what kind of value the other is alone.
fn order_of_kinds(rank: u8, other: &Value) -> Ordering
    ensures { result ≡ nat_cmp rank (val_rank (val_of other.now)) }
{
    let other_rank = rank_of(other);
    rank.cmp(&other_rank)
}

fn rank_of(value: &Value) -> u8
    ensures { result ≡ val_rank (val_of value.now) }
{
    match value {
        Value::Null => 0,
        Value::Bool(_) => 1,
        Value::Int(_) => 2,
        Value::Text(_) => 3,
        Value::Blob(_) => 4,
        Value::Time(_) => 5,
        Value::List(_) => 6,
        Value::Map(_) => 7,
        Value::Structure(_) => 8,
        Value::Union(_, _) => 9,
    }
}

fn order_of_bool(truth: bool, other: &Value) -> Ordering
    ensures { result ≡ val_cmp (bool_val truth) (val_of other.now) }
{
    match other {
        Value::Bool(second) => truth.cmp(second),
        _ => order_of_kinds(1, other),
    }
}

fn order_of_int(number: i64, other: &Value) -> Ordering
    ensures { result ≡ val_cmp (int_val number) (val_of other.now) }
{
    match other {
        Value::Int(second) => number.cmp(second),
        _ => order_of_kinds(2, other),
    }
}

fn order_of_text(text: &str, other: &Value) -> Ordering
    ensures { result ≡ val_cmp (text_val text.now) (val_of other.now) }
{
    match other {
        Value::Text(second) => order_of_texts(text, second.as_str()),
        _ => order_of_kinds(3, other),
    }
}

fn order_of_texts(a: &str, b: &str) -> Ordering
    ensures { result ≡ slice_cmp nat_cmp a.now b.now }
{
    a.cmp(b)
}

fn order_of_blob(bytes: &[u8], other: &Value) -> Ordering
    ensures { result ≡ val_cmp (blob_val bytes.now) (val_of other.now) }
{
    match other {
        Value::Blob(second) => order_of_bytes(bytes, second.as_slice()),
        _ => order_of_kinds(4, other),
    }
}

fn order_of_bytes(a: &[u8], b: &[u8]) -> Ordering
    ensures { result ≡ slice_cmp nat_cmp a.now b.now }
{
    a.cmp(b)
}

fn order_of_time(stamp: Stamp, other: &Value) -> Ordering
    ensures { result ≡ val_cmp (time_val stamp) (val_of other.now) }
{
    match other {
        Value::Time(second) => stamp.milliseconds().cmp(&second.milliseconds()),
        _ => order_of_kinds(5, other),
    }
}

#[cycle(order)]
fn order_of_items(a: &[Value], b: &[Value]) -> Ordering
    ensures { result ≡ vals_cmp (vals_of (vals_view a.now)) (vals_of (vals_view b.now)) }
{
    let mut others = b.iter();
    for item in a {
        match others.next() {
            Some(other) => match order_of(item, other) {
                Ordering::Equal => {}
                order => return order,
            },
            None => return Ordering::Greater,
        }
    }
    match others.next() {
        Some(_) => Ordering::Less,
        None => Ordering::Equal,
    }
}

#[cycle(order)]
fn order_of_entries(a: &[(Text, Value)], b: &[(Text, Value)]) -> Ordering
    ensures { result ≡ entries_cmp (entries_of (each_entry_view a.now)) (entries_of (each_entry_view b.now)) }
{
    let mut others = b.iter();
    for entry in a {
        match others.next() {
            Some(other) => match order_of_entry(entry, other) {
                Ordering::Equal => {}
                order => return order,
            },
            None => return Ordering::Greater,
        }
    }
    match others.next() {
        Some(_) => Ordering::Less,
        None => Ordering::Equal,
    }
}

#[cycle(order)]
fn order_of_entry(a: &(Text, Value), b: &(Text, Value)) -> Ordering
    ensures { result ≡ ordering_then (slice_cmp nat_cmp a.now.0 b.now.0) (val_cmp (val_of a.now.1) (val_of b.now.1)) }
{
    match order_of_texts(a.0.as_str(), b.0.as_str()) {
        Ordering::Equal => order_of(&a.1, &b.1),
        order => order,
    }
}

#[cycle(order)]
fn order_of_fields(a: &[(u32, Value)], b: &[(u32, Value)]) -> Ordering
    ensures { result ≡ fields_cmp (fields_of (each_field_view a.now)) (fields_of (each_field_view b.now)) }
{
    let mut others = b.iter();
    for field in a {
        match others.next() {
            Some(other) => match order_of_field(field, other) {
                Ordering::Equal => {}
                order => return order,
            },
            None => return Ordering::Greater,
        }
    }
    match others.next() {
        Some(_) => Ordering::Less,
        None => Ordering::Equal,
    }
}

#[cycle(order)]
fn order_of_field(a: &(u32, Value), b: &(u32, Value)) -> Ordering
    ensures { result ≡ ordering_then (nat_cmp a.now.0 b.now.0) (val_cmp (val_of a.now.1) (val_of b.now.1)) }
{
    match a.0.cmp(&b.0) {
        Ordering::Equal => order_of(&a.1, &b.1),
        order => order,
    }
}
