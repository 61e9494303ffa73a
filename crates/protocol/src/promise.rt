// What is promised of the rules.
ghost use Rattle.protocol.specs.Promise.{Promise};
ghost use Rattle.protocol.specs.Sound.{StaysSound};

use kinds::kind::Kind;

// What every run of turns comes to, whatever they are and whoever makes them, refused ones counted in:
// the transactions that got a place are as if they had run alone, one after another, by place.
pub fn promise<K: Kind>()
    ensures { Promise K.Kind.model }
{}

// What holds of the engine's state between turns: who has which lock, that places never pass tickets,
// and that a worker that has acknowledged has an empty hand.
pub fn stays_sound<K: Kind>()
    ensures { StaysSound K.Kind.model }
{}
