// The script that a seed makes.
ghost use Rattle.std.specs.Prelude.{◌≡◌, ◌<◌, ◌≤◌, ◌+◌, ◌-◌, ◌*◌, ◌%◌, ◌++◌, ◌∷◌, [], Some, codes, IfOk, OnOk};
ghost use Rattle.snap_ids.specs.Path.{path_of};
ghost use Rattle.script_text.specs.Load.{next, after, drawn, drawn_bytes, named, file_of, snapshot_of, opening, openings, writes, waits, removal, round_of, round_length, rounds, load_of};

use plain_types::{Line, Lines, Restarts, Schedule, Script};
use snap_ids::{Bytes, NoMemory, Path};
use std::alloc::Global;

// What numbers are drawn from: Knuth's linear congruential generator.
#[derive(Drop)]
struct Generator {
    state: u64,
}

impl Generator {
    // A number below `bound`.
    fn draw(&mut self, bound: u32) -> u32
        requires { 0 < bound }
        ensures drawn { result ≡ drawn bound self.new.state }
        ensures below { result < bound }
        ensures state { self.new.state ≡ next self.old.state }
    {
        self.state = self
            .state
            .wrapping_mul(6364136223846793005)
            .wrapping_add(1442695040888963407);
        (self.state >> 33) as u32 % bound
    }

    // Eight bytes.
    fn draw_bytes(&mut self, alloc: Global) -> Result<Bytes, NoMemory>
        ensures bytes { IfOk result (λ bytes. bytes ≡ drawn_bytes 8 self.old.state) }
        ensures state { OnOk result (self.new.state ≡ after 8 self.old.state) }
    {
        let mut bytes = Bytes::new(alloc);
        while bytes.len() < 8 {
            bytes.push(self.draw(256) as u8)?;
        }
        Ok(bytes)
    }

    // One client writes.
    fn write(&mut self, alloc: Global, made: &mut Lines, client: u8) -> Result<(), NoMemory>
        ensures made { OnOk result (made.new ≡ made.old ++ writes 1 client self.old.state) }
        ensures state { OnOk result (self.new.state ≡ after 9 self.old.state) }
    {
        let offset = self.draw(4096);
        let bytes = self.draw_bytes(alloc)?;
        made.push((
            client,
            Line::Write {
                handle: 1,
                offset,
                bytes,
            },
        ))?;
        Ok(())
    }

    // All clients write.
    fn write_all(&mut self, alloc: Global, made: &mut Lines, clients: u8) -> Result<(), NoMemory>
        ensures made { OnOk result (made.new ≡ made.old ++ writes clients 1 self.old.state) }
        ensures state { OnOk result (self.new.state ≡ after (9 * clients) self.old.state) }
    {
        for client in 0..clients {
            self.write(alloc, made, client + 1)?;
        }
        Ok(())
    }

    // A round of writes and a snapshot.
    fn round(
        &mut self,
        alloc: Global,
        made: &mut Lines,
        clients: u8,
        round: u32,
    ) -> Result<(), NoMemory>
        requires clients { 0 < clients }
        requires rounds { 0 < round }
        ensures made { OnOk result (made.new ≡ made.old ++ round_of clients round self.old.state) }
        ensures state { OnOk result (self.new.state ≡ after (9 * clients + 1) self.old.state) }
    {
        let turn = ((round - 1) % u32::from(clients)) as u8 + 1;
        self.write_all(alloc, made, clients)?;
        let path = snapshot_dir(alloc, round)?;
        made.push((turn, Line::Mkdir { path }))?;
        wait_all(made, clients)?;
        let other = self.draw(u32::from(clients)) as u8 + 1;
        let path = snapshot_file(alloc, round, other)?;
        made.push((turn, Line::Cat { path }))?;
        remove(alloc, made, turn, round)
    }
}

// The path that a text spells which is one.
fn path_at(alloc: Global, text: &str) -> Result<Path, NoMemory>
    ensures { IfOk result (λ path. path_of text.now ≡ Some path) }
{
    match Path::parse(alloc, text.as_bytes()) {
        Ok(path) => Ok(path),
        Err(_) => Err(NoMemory),
    }
}

// A client's directory.
fn client_dir(alloc: Global, client: u8) -> Result<Path, NoMemory>
    ensures { IfOk result (λ path. path ≡ named (codes "c") client ∷ []) }
{
    let text = format!(in alloc; "/c{client}")?;
    path_at(alloc, text.as_str())
}

// A client's file.
fn client_file(alloc: Global, client: u8) -> Result<Path, NoMemory>
    ensures { IfOk result (λ path. path ≡ file_of client) }
{
    let text = format!(in alloc; "/c{client}/f")?;
    path_at(alloc, text.as_str())
}

// A round's snapshot.
fn snapshot_dir(alloc: Global, round: u32) -> Result<Path, NoMemory>
    ensures { IfOk result (λ path. path ≡ snapshot_of round) }
{
    let text = format!(in alloc; "/.snap/r{round}")?;
    path_at(alloc, text.as_str())
}

// A client's file in a round's snapshot.
fn snapshot_file(alloc: Global, round: u32, client: u8) -> Result<Path, NoMemory>
    ensures { IfOk result (λ path. path ≡ snapshot_of round ++ file_of client) }
{
    let text = format!(in alloc; "/.snap/r{round}/c{client}/f")?;
    path_at(alloc, text.as_str())
}

// What a client does first.
fn open(alloc: Global, made: &mut Lines, client: u8) -> Result<(), NoMemory>
    ensures { OnOk result (made.new ≡ made.old ++ opening client) }
{
    let path = client_dir(alloc, client)?;
    made.push((client, Line::Mkdir { path }))?;
    let path = client_file(alloc, client)?;
    made.push((client, Line::Create { path, mode: 420 }))?;
    let path = client_file(alloc, client)?;
    made.push((
        client,
        Line::Open {
            handle: 1,
            path,
            writable: true,
        },
    ))?;
    made.push((client, Line::Barrier))?;
    Ok(())
}

// What all clients do first.
fn open_all(alloc: Global, made: &mut Lines, clients: u8) -> Result<(), NoMemory>
    ensures { OnOk result (made.new ≡ made.old ++ openings clients 1) }
{
    for client in 0..clients {
        open(alloc, made, client + 1)?;
    }
    Ok(())
}

// All clients wait.
fn wait_all(made: &mut Lines, clients: u8) -> Result<(), NoMemory>
    ensures { OnOk result (made.new ≡ made.old ++ waits clients 1) }
{
    for client in 0..clients {
        made.push((client + 1, Line::Barrier))?;
    }
    Ok(())
}

// The snapshot of four rounds before is removed.
fn remove(alloc: Global, made: &mut Lines, client: u8, round: u32) -> Result<(), NoMemory>
    ensures { OnOk result (made.new ≡ made.old ++ removal client round) }
{
    if round <= 4 {
        return Ok(());
    }
    let path = snapshot_dir(alloc, round - 4)?;
    made.push((client, Line::Rmdir { path }))?;
    Ok(())
}

// How many lines a round has.
fn round_length(clients: u8, round: u32) -> u32
    ensures { result ≡ round_length clients round }
{
    let removes = if round > 4 { 3 } else { 2 };
    2 * u32::from(clients) + removes
}

// The rounds that fit in `room` lines.
fn play(
    alloc: Global,
    made: &mut Lines,
    seed: u64,
    clients: u8,
    lines: u32,
    room: u32,
) -> Result<(), NoMemory>
    requires clients { 0 < clients }
    requires lines { lines ≤ 512 }
    requires room { room ≤ lines }
    ensures { OnOk result (made.new ≡ made.old ++ rounds lines clients 1 seed room) }
{
    let mut generator = Generator { state: seed };
    let mut left = room;
    let mut round = 1;
    while round_length(clients, round) <= left {
        generator.round(alloc, made, clients, round)?;
        left -= round_length(clients, round);
        round += 1;
    }
    Ok(())
}

/// The script that `seed` makes: `clients` clients, 1 to 8, which open a file each and then write in rounds, with a
/// snapshot in each, and at most `lines` lines, 4 for each client to 512. The same seed makes the same script.
pub fn load(alloc: Global, seed: u64, clients: u8, lines: u32) -> Result<Script, NoMemory>
    requires some_clients { 1 ≤ clients }
    requires few_clients { clients ≤ 8 }
    requires some_lines { 4 * clients ≤ lines }
    requires few_lines { lines ≤ 512 }
    ensures { IfOk result (λ script. script ≡ load_of seed clients lines) }
{
    let mut made = Lines::new(alloc);
    open_all(alloc, &mut made, clients)?;
    play(
        alloc,
        &mut made,
        seed,
        clients,
        lines,
        lines - 4 * u32::from(clients),
    )?;
    Ok(Script {
        clients,
        object: None,
        restarts: Restarts::new(alloc),
        lines: made,
        schedule: Schedule::new(alloc),
        input_lines: 0,
    })
}
