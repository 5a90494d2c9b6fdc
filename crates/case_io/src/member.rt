//! Members of JSON objects.

ghost use Rattle.std.specs.Prelude.{◌≡◌, ◌++◌, map, flat_map, codes, OnOk};
ghost use Rattle.case_io.specs.View.{member_view, members_view};
ghost use Rattle.case_io.specs.ResultLines.{joined, member_text, object_text};

use crate::json_text::put_bytes;
use num_type::Memory;

/// A member of an object: its name, and the text of its value.
#[derive(PartialEq, Eq, PartialOrd, Ord, Drop)]
pub struct Member {
    pub name: Vec<u8>,
    pub text: Vec<u8>,
}

// Appends a member.
fn put_member(member: &Member, out: &mut Vec<u8>) -> Result<(), Memory>
    ensures { OnOk result (out.new.items ≡ out.old.items ++ member_text (member_view member.now)) }
{
    put_bytes(b"\"", out)?;
    put_bytes(member.name.as_slice(), out)?;
    put_bytes(b"\":", out)?;
    put_bytes(member.text.as_slice(), out)
}

// Appends a comma and a member.
fn put_next(member: &Member, out: &mut Vec<u8>) -> Result<(), Memory>
    ensures { OnOk result (out.new.items ≡ out.old.items ++ (codes "," ++ member_text (member_view member.now))) }
{
    put_bytes(b",", out)?;
    put_member(member, out)
}

// Appends members, each behind a comma.
fn put_more(members: &[Member], out: &mut Vec<u8>) -> Result<(), Memory>
    ensures { OnOk result (out.new.items ≡ out.old.items ++ flat_map (λ next. codes "," ++ next) (map member_text (members_view members.now))) }
{
    for member in members {
        put_next(member, out)?;
    }
    Ok(())
}

// Appends members with a comma between two.
fn put_members(members: &[Member], out: &mut Vec<u8>) -> Result<(), Memory>
    ensures { OnOk result (out.new.items ≡ out.old.items ++ joined (map member_text (members_view members.now))) }
{
    match members.split_first() {
        None => Ok(()),
        Some((first, more)) => {
            put_member(first, out)?;
            put_more(more, out)
        }
    }
}

/// Appends the object of these members, in this order. Want of memory is the only refusal.
pub fn put_object(members: &[Member], out: &mut Vec<u8>) -> Result<(), Memory>
    ensures { OnOk result (out.new.items ≡ out.old.items ++ object_text (members_view members.now)) }
{
    put_bytes(b"{", out)?;
    put_members(members, out)?;
    put_bytes(b"}", out)
}
