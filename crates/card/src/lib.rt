// The launch card, read and written.
#![tactic(auto)]

ghost use Rattle.std.specs.Prelude.{◌≡◌, length};
ghost use Rattle.answer.specs.Answer.{number_of};
ghost use Rattle.big_endian.specs.Puts.{puts_all, later};
ghost use Rattle.card.specs.Card.{values_of, card_size, head_ok_at, launch_at, reading_of, read_card_of, writing, write_card_of};

use answer::Refusal;
use big_endian::{byte_at, half_at, put_byte, put_half, put_word, word_at};
use warp::{Fixed, Launch};

const CARD_SIZE: usize = 50;

const CARD_LENGTH: u32 = 48;

const CARD_VERSION: u32 = 1;

fn head_ok(b: &[u8]) -> bool
    requires { length b.now ≡ card_size }
    ensures { result ≡ head_ok_at b.now }
{
    let length = half_at(b, 0);
    let version = byte_at(b, 2);
    (length == CARD_LENGTH) & (version == CARD_VERSION)
}

fn launch_at(b: &[u8]) -> Launch
    requires { length b.now ≡ card_size }
    ensures { result ≡ launch_at b.now }
{
    let f = Fixed {
        numt: byte_at(b, 3),
        numw: byte_at(b, 4),
        wid: byte_at(b, 5),
        launchMask: word_at(b, 6),
        codeBase: word_at(b, 10),
        dataBase: word_at(b, 14),
        knl: word_at(b, 22),
        wgid: word_at(b, 26),
        lds: word_at(b, 30),
        pds: word_at(b, 34),
        gidx: word_at(b, 38),
        gidy: word_at(b, 42),
        gidz: word_at(b, 46),
    };
    Launch {
        fixed: f,
        entry: word_at(b, 18),
    }
}

// The launch on a card.
pub fn read_card(bytes: &[u8]) -> Result<Launch, Refusal>
    ensures { reading_of result ≡ read_card_of bytes.now }
{
    if bytes.len() != CARD_SIZE {
        return Err(Refusal::BadCard);
    }
    if !head_ok(bytes) {
        return Err(Refusal::BadCard);
    }
    let l = launch_at(bytes);
    if !warp::launch_ok(l) {
        return Err(Refusal::Size);
    }
    Ok(l)
}

// Length to entry PC; what is left to put is KNL to GIDZ.
fn put_first(l: Launch, t: &mut [u8])
    requires { length t.old ≡ card_size }
    ensures { puts_all (later 9 (values_of l)) 22 t.new ≡ puts_all (values_of l) 0 t.old }
{
    let f = l.fixed;
    put_half(t, 0, CARD_LENGTH);
    put_byte(t, 2, CARD_VERSION);
    put_byte(t, 3, f.numt);
    put_byte(t, 4, f.numw);
    put_byte(t, 5, f.wid);
    put_word(t, 6, f.launchMask);
    put_word(t, 10, f.codeBase);
    put_word(t, 14, f.dataBase);
    put_word(t, 18, l.entry);
}

// KNL to GIDZ.
fn put_later(l: Launch, t: &mut [u8])
    requires { length t.old ≡ card_size }
    ensures { t.new ≡ puts_all (later 9 (values_of l)) 22 t.old }
{
    let f = l.fixed;
    put_word(t, 22, f.knl);
    put_word(t, 26, f.wgid);
    put_word(t, 30, f.lds);
    put_word(t, 34, f.pds);
    put_word(t, 38, f.gidx);
    put_word(t, 42, f.gidy);
    put_word(t, 46, f.gidz);
}

// The launch written as a card; nothing is written where it is refused.
pub fn write_card(l: Launch, target: &mut [u8]) -> Result<(), Refusal>
    ensures { writing (number_of result) target.new ≡ write_card_of l target.old }
{
    if target.len() != CARD_SIZE {
        return Err(Refusal::Size);
    }
    if !warp::launch_ok(l) {
        return Err(Refusal::Size);
    }
    put_first(l, target);
    put_later(l, target);
    Ok(())
}
