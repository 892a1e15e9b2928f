// What the controller holds, and the checks on plain numbers.
ghost use Rattle.std.specs.Prelude.{◌≡◌, ◌≤◌, ◌<◌, length};
ghost use Rattle.store.specs.Held.{held};
ghost use Rattle.language.specs.declared.command.Look.TheVariants as L;
ghost use Rattle.language.specs.Vocabulary.{look_form};
ghost use Rattle.language.specs.Replies as s;
ghost use Rattle.language.specs.Commands.{looked};
ghost use Rattle.stateless.specs.Leaving.{Says, Narrow, firsts};

use language::command::Look;
use language::sizes::NUMBERS;
use ring::doorbell::{check_head, check_tail};
use rules::refusal::code;
use stateless::reply::{Reply, told};
use store::{WORDS, arbiter_of, command_at, cq_at, free_of, is_outstanding, sq_at};

fn show_sq(state: &[u64; WORDS], a: &[u64; NUMBERS]) -> Reply
    requires { Narrow (look_form L.ShowSq) 0 a.now }
    ensures { Says (s.told (looked (held state.now) L.ShowSq (firsts 1 0 a.now))) result }
{
    let q = sq_at(state, a[0] as usize);
    let r = q.ring;
    told(&[
        u64::from(r.exists),
        r.base,
        r.size as u64,
        r.head as u64,
        r.tail as u64,
        q.cq as u64,
        q.class as u64,
        u64::from(q.marked),
    ])
}

fn show_cq(state: &[u64; WORDS], a: &[u64; NUMBERS]) -> Reply
    requires { Narrow (look_form L.ShowCq) 0 a.now }
    ensures { Says (s.told (looked (held state.now) L.ShowCq (firsts 1 0 a.now))) result }
{
    let q = cq_at(state, a[0] as usize);
    let r = q.ring;
    told(&[
        u64::from(r.exists),
        r.base,
        r.size as u64,
        r.head as u64,
        r.tail as u64,
        q.phase as u64,
    ])
}

fn show_tag(state: &[u64; WORDS], a: &[u64; NUMBERS]) -> Reply
    requires { Narrow (look_form L.ShowTag) 0 a.now }
    ensures { Says (s.told (looked (held state.now) L.ShowTag (firsts 1 0 a.now))) result }
{
    let tag = a[0];
    if !is_outstanding(free_of(state), tag) {
        return told(&[0; 5]);
    }
    let k = command_at(state, tag as usize);
    told(&[1, k.sq as u64, k.cid as u64, k.verdict as u64, k.number])
}

fn show_arbiter(state: &[u64; WORDS]) -> Reply
    ensures { Says (s.told (looked (held state.now) L.ShowArbiter (firsts 0 0 state.now))) result }
{
    let t = arbiter_of(state);
    let high = t.high;
    let medium = t.medium;
    let low = t.low;
    told(&[
        u64::from(t.weighted),
        t.word as u64,
        t.group.holder as u64,
        t.group.remainder.number(),
        high.group.holder as u64,
        high.group.remainder.number(),
        high.credit as u64,
        medium.group.holder as u64,
        medium.group.remainder.number(),
        medium.credit as u64,
        low.group.holder as u64,
        low.group.remainder.number(),
        low.credit as u64,
    ])
}

pub fn look(state: &[u64; WORDS], k: Look, a: &[u64; NUMBERS]) -> Reply
    requires { Narrow (look_form k) 0 a.now }
    ensures { Says (s.told (looked (held state.now) k (firsts (length (look_form k)) 0 a.now))) result }
{
    match k {
        Look::CheckTail => told(&[code(check_tail(a[0], a[1], a[2], a[3]))]),
        Look::CheckHead => told(&[code(check_head(a[0], a[1], a[2], a[3]))]),
        Look::ShowSq => show_sq(state, a),
        Look::ShowCq => show_cq(state, a),
        Look::ShowTag => show_tag(state, a),
        Look::ShowArbiter => show_arbiter(state),
    }
}
