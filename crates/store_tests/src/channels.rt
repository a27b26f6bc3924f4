// Channels of two clients by hand: node 0 is the server, and node 3 the store.
ghost use Rattle.std.specs.Prelude.{◌≡◌};

use node_channels::Channels;
use plain_types::{FromStore, Message, Sending, Sent, Stamp, Step, ToClient, ToServer, ToStore};
use snap_ids::{Ino, NoMemory, SnapId};
use std::alloc::Global;
use std::test::Fail;

fn said(conn: u64) -> Message {
    Message::ToServer(ToServer::DropRead { conn, ino: Ino(7) })
}

fn told(entry: u64) -> Message {
    let stamp = Stamp {
        snap: SnapId(1),
        entry,
    };
    Message::ToClient(ToClient::Restarted { stamp })
}

fn asked(key: u32) -> Message {
    let ino = Ino(7);
    Message::ToStore(ToStore::ListClones { key, ino, index: 0 })
}

fn found(key: u32) -> Message {
    Message::FromStore(FromStore::NotThere { key })
}

fn ordered(id: u64) -> Message {
    Message::ToStore(ToStore::Purge(SnapId(id)))
}

fn reported(id: u64) -> Message {
    Message::ToServer(ToServer::Purged(SnapId(id)))
}

// The first client sends to the server.
fn first_says(channels: &mut Channels, conn: u64) -> Result<(), NoMemory>
    requires { channels.old.clients ≡ 2 }
    ensures { channels.new.clients ≡ 2 }
{
    let message = Message::ToServer(ToServer::DropRead { conn, ino: Ino(7) });
    channels.send(1, Sent { to: 0, message })
}

// The second client sends to the server.
fn second_says(channels: &mut Channels, conn: u64) -> Result<(), NoMemory>
    requires { channels.old.clients ≡ 2 }
    ensures { channels.new.clients ≡ 2 }
{
    let message = Message::ToServer(ToServer::DropRead { conn, ino: Ino(7) });
    channels.send(2, Sent { to: 0, message })
}

// The second client sends to the store.
fn second_asks(channels: &mut Channels, key: u32) -> Result<(), NoMemory>
    requires { channels.old.clients ≡ 2 }
    ensures { channels.new.clients ≡ 2 }
{
    let message = Message::ToStore(ToStore::ListClones {
        key,
        ino: Ino(7),
        index: 0,
    });
    channels.send(2, Sent { to: 3, message })
}

// The store sends to the second client.
fn second_hears(channels: &mut Channels, key: u32) -> Result<(), NoMemory>
    requires { channels.old.clients ≡ 2 }
    ensures { channels.new.clients ≡ 2 }
{
    let message = Message::FromStore(FromStore::NotThere { key });
    channels.send(3, Sent { to: 2, message })
}

// The server sends to the store.
fn server_orders(channels: &mut Channels, id: u64) -> Result<(), NoMemory>
    requires { channels.old.clients ≡ 2 }
    ensures { channels.new.clients ≡ 2 }
{
    let message = Message::ToStore(ToStore::Purge(SnapId(id)));
    channels.send(0, Sent { to: 3, message })
}

// The store sends to the server.
fn store_reports(channels: &mut Channels, id: u64) -> Result<(), NoMemory>
    requires { channels.old.clients ≡ 2 }
    ensures { channels.new.clients ≡ 2 }
{
    let message = Message::ToServer(ToServer::Purged(SnapId(id)));
    channels.send(3, Sent { to: 0, message })
}

// The server sends to both clients, in a list.
fn server_tells(alloc: Global, channels: &mut Channels, entry: u64) -> Result<(), NoMemory>
    requires { channels.old.clients ≡ 2 }
    ensures { channels.new.clients ≡ 2 }
{
    let stamp = Stamp {
        snap: SnapId(1),
        entry,
    };
    let mut sent = Sending::new(alloc);
    let message = Message::ToClient(ToClient::Restarted { stamp });
    sent.push(Sent { to: 1, message })?;
    let message = Message::ToClient(ToClient::Restarted { stamp });
    sent.push(Sent { to: 2, message })?;
    channels.send_all(0, sent)
}

// Whether it is this message that is taken next.
fn takes(channels: &mut Channels, step: Step, message: &Message) -> bool
    ensures { channels.new.clients ≡ channels.old.clients }
{
    match channels.take(&step) {
        Some(taken) => taken == *message,
        None => false,
    }
}

// Whether it is this message that waits first.
fn waits(channels: &Channels, step: Step, message: &Message) -> bool {
    match channels.first(&step) {
        Some(first) => *first == *message,
        None => false,
    }
}

#[test]
fn first_in_is_first_out(rt: HostRuntime) -> Result<(), Fail> {
    let mut channels = Channels::new(rt.alloc(), 2)?;
    first_says(&mut channels, 4)?;
    first_says(&mut channels, 5)?;
    assert!(rt; takes(&mut channels, Step::ServerTakes(1), &said(4)));
    assert!(rt; takes(&mut channels, Step::ServerTakes(1), &said(5)));
    Ok(())
}

#[test]
fn the_oldest_message_is_shown(rt: HostRuntime) -> Result<(), Fail> {
    let mut channels = Channels::new(rt.alloc(), 2)?;
    first_says(&mut channels, 4)?;
    first_says(&mut channels, 5)?;
    assert!(rt; waits(&channels, Step::ServerTakes(1), &said(4)));
    assert_eq!(rt; channels.len(), 2);
    Ok(())
}

#[test]
fn messages_are_counted(rt: HostRuntime) -> Result<(), Fail> {
    let mut channels = Channels::new(rt.alloc(), 2)?;
    assert!(rt; channels.is_empty());
    first_says(&mut channels, 4)?;
    second_says(&mut channels, 5)?;
    assert_eq!(rt; channels.len(), 2);
    assert!(rt; takes(&mut channels, Step::ServerTakes(2), &said(5)));
    assert_eq!(rt; channels.len(), 1);
    assert!(rt; !takes(&mut channels, Step::ServerTakes(2), &said(5)));
    assert!(rt; !channels.is_empty());
    Ok(())
}

#[test]
fn clients_and_the_store_have_channels(rt: HostRuntime) -> Result<(), Fail> {
    let mut channels = Channels::new(rt.alloc(), 2)?;
    second_asks(&mut channels, 6)?;
    second_hears(&mut channels, 7)?;
    assert!(rt; !channels.holds(&Step::ClientFromServer(2)));
    assert!(rt; takes(&mut channels, Step::StoreTakes(2), &asked(6)));
    assert!(rt; takes(&mut channels, Step::ClientFromStore(2), &found(7)));
    Ok(())
}

#[test]
fn the_server_and_the_store_have_channels(rt: HostRuntime) -> Result<(), Fail> {
    let mut channels = Channels::new(rt.alloc(), 2)?;
    server_orders(&mut channels, 8)?;
    store_reports(&mut channels, 9)?;
    assert!(rt; !channels.holds(&Step::ServerTakes(2)));
    assert!(rt; takes(&mut channels, Step::StoreTakes(0), &ordered(8)));
    assert!(rt; takes(&mut channels, Step::ServerTakes(3), &reported(9)));
    Ok(())
}

#[test]
fn a_list_is_sent_in_its_order(rt: HostRuntime) -> Result<(), Fail> {
    let mut channels = Channels::new(rt.alloc(), 2)?;
    server_tells(rt.alloc(), &mut channels, 2)?;
    server_tells(rt.alloc(), &mut channels, 3)?;
    assert!(rt; takes(&mut channels, Step::ClientFromServer(1), &told(2)));
    assert!(rt; takes(&mut channels, Step::ClientFromServer(1), &told(3)));
    assert!(rt; takes(&mut channels, Step::ClientFromServer(2), &told(2)));
    Ok(())
}

#[test]
fn what_takes_nothing_has_no_message(rt: HostRuntime) -> Result<(), Fail> {
    let mut channels = Channels::new(rt.alloc(), 2)?;
    first_says(&mut channels, 4)?;
    assert!(rt; !channels.holds(&Step::Commit));
    assert!(rt; !channels.holds(&Step::Op(1)));
    assert!(rt; !channels.holds(&Step::ServerTakes(0)));
    assert!(rt; !channels.holds(&Step::ServerTakes(200)));
    Ok(())
}
