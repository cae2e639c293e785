// Readings of due settings: of one device; and of all, into a lent list (document 02, item 14).
ghost use Rattle.hub.specs.Valid.{Valid};

use hub::Hub;
use run_book_print::{print_refusal, print_setting};
use std::io;

// Room for more settings than there can be devices.
const ROOM: usize = 40;

// One device, which the hub need not have.
pub fn print_one(rt: &impl Print, hub: Hub, device: u8) -> io::Result<()>
    requires { Valid hub }
{
    let due = hub::due_setting(hub, device);
    println!(rt; "due {due}")
}

fn print_settings(rt: &impl Print, list: &[i16]) -> io::Result<()> {
    for setting in list {
        print_setting(rt, *setting)?;
    }
    Ok(())
}

// Lends the first entries of a list that holds the same number everywhere. Prints the refusal, if there is one, and then the whole list,
// what was not lent of it included.
pub fn print_list(rt: &impl Print, hub: Hub, lent: u8, before: i16) -> io::Result<()>
    requires { Valid hub }
{
    let mut list = [before; ROOM];
    let Some(part) = list.get_mut(..usize::from(lent)) else {
        return Ok(());
    };
    if let Err(refusal) = hub::due_settings(hub, part) {
        print_refusal(rt, refusal)?;
        println!(rt)?;
    }
    print!(rt; "list")?;
    print_settings(rt, &list)?;
    println!(rt)
}
