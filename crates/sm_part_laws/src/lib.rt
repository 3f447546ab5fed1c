// What is written for a value at a part of an HTTP message is read again as that value (Smithy 2.0, "HTTP binding traits"). These calls do
// nothing: their contracts are the laws.
#![tactic(auto)]

ghost use Rattle.sm_part_laws.specs.Laws.{HeaderRead, LabelRead, PrefixedRead, QueryMapRead, QueryRead, RawBlobRead, RawTextRead, StatusRead};

/// The text of a label that is carried comes to its value.
pub fn label_read()
    ensures { LabelRead }
{}

/// The texts of a query member that is carried come to its value: one text by itself, or all together as a list.
pub fn query_read()
    ensures { QueryRead }
{}

/// The pairs of a query map that is carried come to it, whether its values are texts or lists of them.
pub fn query_map_read()
    ensures { QueryMapRead }
{}

/// The field of a header that is carried comes to its value: one text, or a list with its quotation marks and commas.
pub fn header_read()
    ensures { HeaderRead }
{
    sm_parts::laws::written_texts_read();
    sm_part_texts::laws::carried_texts_pass();
}

/// The fields of prefix headers that are carried come to their map.
pub fn prefixed_read()
    ensures { PrefixedRead }
{
    sm_part_texts::laws::carried_texts_pass();
}

/// The bytes of a blob that is a payload come to it.
pub fn raw_blob_read()
    ensures { RawBlobRead }
{}

/// The bytes of a string or an enum that is a payload come to it.
pub fn raw_text_read()
    ensures { RawTextRead }
{}

/// The number of a status that is bound comes to its value.
pub fn status_read()
    ensures { StatusRead }
{}
