// Copies of values, and of the rows of a table.
ghost use Rattle.std.specs.Prelude.{◌≡◌, IfOk, option_map};
ghost use Rattle.sm_tree.specs.View.{node_of};
ghost use Rattle.sm_shapes.specs.ConstraintView.{constraint_data};
ghost use Rattle.sm_shapes.specs.TableView.{binding_data, shape_data, member_data};
ghost use Rattle.sm_shapes.specs.ValueView.{val_of, vals_view, each_entry_view, each_field_view};

use crate::MemberNumbers;
use crate::constraints::Constraints;
use crate::tables::{Binding, TableMember, TableShape};
use crate::values::{Entries, Fields, Items, Value};
use sm_tree::{Bytes, NoMemory, Text, Tree, copy_tree};
use std::alloc::Global;

impl Value {
    /// A copy of a value.
    pub fn copy(&self, alloc: Global) -> Result<Value, NoMemory>
        ensures { IfOk result (λ copy. val_of copy ≡ val_of self.now) }
    {
        copy_value(alloc, self)
    }
}

#[cycle(copy)]
fn copy_value(alloc: Global, value: &Value) -> Result<Value, NoMemory>
    ensures { IfOk result (λ copy. val_of copy ≡ val_of value.now) }
{
    match value {
        Value::Null => Ok(Value::Null),
        Value::Bool(truth) => Ok(Value::Bool(*truth)),
        Value::Int(number) => Ok(Value::Int(*number)),
        Value::Text(text) => Ok(Value::Text(Text::copy(alloc, text.as_str())?)),
        Value::Blob(bytes) => Ok(Value::Blob(copy_bytes(alloc, bytes)?)),
        Value::Time(stamp) => Ok(Value::Time(*stamp)),
        Value::List(items) => {
            let copies = copy_items(alloc, items.as_slice())?;
            Ok(Value::List(Items::new(copies)))
        }
        Value::Map(entries) => {
            let copies = copy_entries(alloc, entries.as_slice())?;
            Ok(Value::Map(Entries::new(copies)))
        }
        Value::Structure(fields) => {
            let copies = copy_fields(alloc, fields.as_slice())?;
            Ok(Value::Structure(Fields::new(copies)))
        }
        Value::Union(member, content) => {
            let copy = copy_value(alloc, content)?;
            Ok(Value::Union(*member, Box::new(alloc, copy)?))
        }
    }
}

fn copy_bytes(alloc: Global, bytes: &Bytes) -> Result<Bytes, NoMemory>
    ensures { IfOk result (λ copy. copy ≡ bytes.now) }
{
    Ok(Bytes::new(bytes.as_slice().to_vec(alloc)?))
}

#[cycle(copy)]
fn copy_items(alloc: Global, items: &[Value]) -> Result<Vec<Value>, NoMemory>
    ensures { IfOk result (λ copies. vals_view copies.items ≡ vals_view items.now) }
{
    let mut copies = Vec::with_capacity(alloc, items.len())?;
    for item in items {
        copies.push(copy_value(alloc, item)?)?;
    }
    Ok(copies)
}

#[cycle(copy)]
fn copy_entries(alloc: Global, entries: &[(Text, Value)]) -> Result<Vec<(Text, Value)>, NoMemory>
    ensures { IfOk result (λ copies. each_entry_view copies.items ≡ each_entry_view entries.now) }
{
    let mut copies = Vec::with_capacity(alloc, entries.len())?;
    for entry in entries {
        let value = copy_value(alloc, &entry.1)?;
        copies.push((Text::copy(alloc, entry.0.as_str())?, value))?;
    }
    Ok(copies)
}

#[cycle(copy)]
fn copy_fields(alloc: Global, fields: &[(u32, Value)]) -> Result<Vec<(u32, Value)>, NoMemory>
    ensures { IfOk result (λ copies. each_field_view copies.items ≡ each_field_view fields.now) }
{
    let mut copies = Vec::with_capacity(alloc, fields.len())?;
    for field in fields {
        let value = copy_value(alloc, &field.1)?;
        copies.push((field.0, value))?;
    }
    Ok(copies)
}

impl MemberNumbers {
    /// A copy of the numbers.
    pub fn copy(&self, alloc: Global) -> Result<MemberNumbers, NoMemory>
        ensures { IfOk result (λ copy. copy ≡ self.now) }
    {
        Ok(MemberNumbers::new(self.as_slice().to_vec(alloc)?))
    }
}

impl Constraints {
    /// These constraints for one row more. The values of enums are shared, so no memory: it is refused only where no more rows can be
    /// counted.
    pub fn share(&self) -> Result<Constraints, NoMemory>
        ensures { IfOk result (λ copy. constraint_data copy ≡ constraint_data self.now) }
    {
        let texts = self.texts.share()?;
        let numbers = self.numbers.share()?;
        Ok(Constraints {
            min: self.min,
            max: self.max,
            pattern: self.pattern,
            texts,
            numbers,
        })
    }
}

impl Binding {
    /// A copy of a binding.
    pub fn copy(&self, alloc: Global) -> Result<Binding, NoMemory>
        ensures { IfOk result (λ copy. binding_data copy ≡ binding_data self.now) }
    {
        match self {
            Binding::Label => Ok(Binding::Label),
            Binding::Query(name) => Ok(Binding::Query(Text::copy(alloc, name.as_str())?)),
            Binding::QueryParams => Ok(Binding::QueryParams),
            Binding::Header(name) => Ok(Binding::Header(Text::copy(alloc, name.as_str())?)),
            Binding::PrefixHeaders(prefix) => Ok(Binding::PrefixHeaders(Text::copy(
                alloc,
                prefix.as_str(),
            )?)),
            Binding::Payload => Ok(Binding::Payload),
            Binding::ResponseCode => Ok(Binding::ResponseCode),
        }
    }
}

fn copy_text(alloc: Global, text: &Option<Text>) -> Result<Option<Text>, NoMemory>
    ensures { IfOk result (λ copy. copy ≡ text.now) }
{
    match text {
        None => Ok(None),
        Some(text) => Ok(Some(Text::copy(alloc, text.as_str())?)),
    }
}

fn copy_binding(alloc: Global, binding: &Option<Binding>) -> Result<Option<Binding>, NoMemory>
    ensures { IfOk result (λ copy. option_map binding_data copy ≡ option_map binding_data binding.now) }
{
    match binding {
        None => Ok(None),
        Some(binding) => Ok(Some(binding.copy(alloc)?)),
    }
}

fn copy_node(alloc: Global, node: &Option<Tree>) -> Result<Option<Tree>, NoMemory>
    ensures { IfOk result (λ copy. option_map node_of copy ≡ option_map node_of node.now) }
{
    match node {
        None => Ok(None),
        Some(node) => Ok(Some(copy_tree(alloc, node)?)),
    }
}

fn copy_default(alloc: Global, default: &Option<Value>) -> Result<Option<Value>, NoMemory>
    ensures { IfOk result (λ copy. option_map val_of copy ≡ option_map val_of default.now) }
{
    match default {
        None => Ok(None),
        Some(default) => Ok(Some(default.copy(alloc)?)),
    }
}

impl TableShape {
    /// A copy of a row. The values of an enum are shared.
    pub fn copy(&self, alloc: Global) -> Result<TableShape, NoMemory>
        ensures { IfOk result (λ copy. shape_data copy ≡ shape_data self.now) }
    {
        Ok(TableShape {
            kind: self.kind,
            members: self.members.copy(alloc)?,
            by_name: self.by_name.copy(alloc)?,
            by_json_name: self.by_json_name.copy(alloc)?,
            needed: self.needed.copy(alloc)?,
            constraints: self.constraints.share()?,
            unique: self.unique,
            sparse: self.sparse,
            unit: self.unit,
            format: self.format,
            media_type: copy_text(alloc, &self.media_type)?,
        })
    }
}

impl TableMember {
    /// A copy of a row. The values of an enum are shared.
    pub fn copy(&self, alloc: Global) -> Result<TableMember, NoMemory>
        ensures { IfOk result (λ copy. member_data copy ≡ member_data self.now) }
    {
        Ok(TableMember {
            shape: self.shape,
            name: Text::copy(alloc, self.name.as_str())?,
            json_name: copy_text(alloc, &self.json_name)?,
            target: self.target,
            required: self.required,
            constraints: self.constraints.share()?,
            format: self.format,
            media_type: copy_text(alloc, &self.media_type)?,
            binding: copy_binding(alloc, &self.binding)?,
            default_node: copy_node(alloc, &self.default_node)?,
            default: copy_default(alloc, &self.default)?,
        })
    }
}
