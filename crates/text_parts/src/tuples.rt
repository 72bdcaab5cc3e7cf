//! Tuples of parts: one after another. They are written by hand, since the gate takes no `impl` that a macro of the
//! repository writes.
use crate::part::Part;
use trace_io::TextSink;

impl Part for () {
    ghost use Rattle.std.specs.Prelude.{[]};

    ghost text = { λ none. [] };

    #[inline(always)]
    fn say<S: TextSink>(self, _out: &mut S) {}
}

impl<A: Part, B: Part> Part for (A, B) {
    ghost use Rattle.std.specs.Prelude.{◌++◌};

    ghost text = { λ parts. A.text parts.0 ++ B.text parts.1 };

    #[inline(always)]
    fn say<S: TextSink>(self, out: &mut S) {
        self.0.say(out);
        self.1.say(out);
    }
}

impl<A: Part, B: Part, C: Part> Part for (A, B, C) {
    ghost use Rattle.std.specs.Prelude.{◌++◌};

    ghost text = { λ parts. A.text parts.0 ++ B.text parts.1 ++ C.text parts.2 };

    #[inline(always)]
    fn say<S: TextSink>(self, out: &mut S) {
        self.0.say(out);
        self.1.say(out);
        self.2.say(out);
    }
}

impl<A: Part, B: Part, C: Part, D: Part> Part for (A, B, C, D) {
    ghost use Rattle.std.specs.Prelude.{◌++◌};

    ghost text = { λ parts. A.text parts.0 ++ B.text parts.1 ++ C.text parts.2 ++ D.text parts.3 };

    #[inline(always)]
    fn say<S: TextSink>(self, out: &mut S) {
        self.0.say(out);
        self.1.say(out);
        self.2.say(out);
        self.3.say(out);
    }
}

impl<A: Part, B: Part, C: Part, D: Part, E: Part> Part for (A, B, C, D, E) {
    ghost use Rattle.std.specs.Prelude.{◌++◌};

    ghost text = { λ parts. A.text parts.0 ++ B.text parts.1 ++ C.text parts.2 ++ D.text parts.3 ++ E.text parts.4 };

    #[inline(always)]
    fn say<S: TextSink>(self, out: &mut S) {
        self.0.say(out);
        self.1.say(out);
        self.2.say(out);
        self.3.say(out);
        self.4.say(out);
    }
}

impl<A: Part, B: Part, C: Part, D: Part, E: Part, F: Part> Part for (A, B, C, D, E, F) {
    ghost use Rattle.std.specs.Prelude.{◌++◌};

    ghost text = { λ parts. A.text parts.0 ++ B.text parts.1 ++ C.text parts.2 ++ D.text parts.3 ++ E.text parts.4 ++ F.text parts.5 };

    #[inline(always)]
    fn say<S: TextSink>(self, out: &mut S) {
        self.0.say(out);
        self.1.say(out);
        self.2.say(out);
        self.3.say(out);
        self.4.say(out);
        self.5.say(out);
    }
}

impl<A: Part, B: Part, C: Part, D: Part, E: Part, F: Part, G: Part> Part for (A, B, C, D, E, F, G) {
    ghost use Rattle.std.specs.Prelude.{◌++◌};

    ghost text = { λ parts. A.text parts.0 ++ B.text parts.1 ++ C.text parts.2 ++ D.text parts.3 ++ E.text parts.4 ++ F.text parts.5
        ++ G.text parts.6 };

    #[inline(always)]
    fn say<S: TextSink>(self, out: &mut S) {
        self.0.say(out);
        self.1.say(out);
        self.2.say(out);
        self.3.say(out);
        self.4.say(out);
        self.5.say(out);
        self.6.say(out);
    }
}

impl<A: Part, B: Part, C: Part, D: Part, E: Part, F: Part, G: Part, H: Part> Part
    for (A, B, C, D, E, F, G, H) {
    ghost use Rattle.std.specs.Prelude.{◌++◌};

    ghost text = { λ parts. A.text parts.0 ++ B.text parts.1 ++ C.text parts.2 ++ D.text parts.3 ++ E.text parts.4 ++ F.text parts.5
        ++ G.text parts.6 ++ H.text parts.7 };

    #[inline(always)]
    fn say<S: TextSink>(self, out: &mut S) {
        self.0.say(out);
        self.1.say(out);
        self.2.say(out);
        self.3.say(out);
        self.4.say(out);
        self.5.say(out);
        self.6.say(out);
        self.7.say(out);
    }
}

impl<A: Part, B: Part, C: Part, D: Part, E: Part, F: Part, G: Part, H: Part, I: Part> Part
    for (A, B, C, D, E, F, G, H, I) {
    ghost use Rattle.std.specs.Prelude.{◌++◌};

    ghost text = { λ parts. A.text parts.0 ++ B.text parts.1 ++ C.text parts.2 ++ D.text parts.3 ++ E.text parts.4 ++ F.text parts.5
        ++ G.text parts.6 ++ H.text parts.7 ++ I.text parts.8 };

    #[inline(always)]
    fn say<S: TextSink>(self, out: &mut S) {
        self.0.say(out);
        self.1.say(out);
        self.2.say(out);
        self.3.say(out);
        self.4.say(out);
        self.5.say(out);
        self.6.say(out);
        self.7.say(out);
        self.8.say(out);
    }
}

impl<A: Part, B: Part, C: Part, D: Part, E: Part, F: Part, G: Part, H: Part, I: Part, J: Part> Part
    for (A, B, C, D, E, F, G, H, I, J) {
    ghost use Rattle.std.specs.Prelude.{◌++◌};

    ghost text = { λ parts. A.text parts.0 ++ B.text parts.1 ++ C.text parts.2 ++ D.text parts.3 ++ E.text parts.4 ++ F.text parts.5
        ++ G.text parts.6 ++ H.text parts.7 ++ I.text parts.8 ++ J.text parts.9 };

    #[inline(always)]
    fn say<S: TextSink>(self, out: &mut S) {
        self.0.say(out);
        self.1.say(out);
        self.2.say(out);
        self.3.say(out);
        self.4.say(out);
        self.5.say(out);
        self.6.say(out);
        self.7.say(out);
        self.8.say(out);
        self.9.say(out);
    }
}

impl<
    A: Part,
    B: Part,
    C: Part,
    D: Part,
    E: Part,
    F: Part,
    G: Part,
    H: Part,
    I: Part,
    J: Part,
    K: Part,
> Part for (A, B, C, D, E, F, G, H, I, J, K) {
    ghost use Rattle.std.specs.Prelude.{◌++◌};

    ghost text = { λ parts. A.text parts.0 ++ B.text parts.1 ++ C.text parts.2 ++ D.text parts.3 ++ E.text parts.4 ++ F.text parts.5
        ++ G.text parts.6 ++ H.text parts.7 ++ I.text parts.8 ++ J.text parts.9 ++ K.text parts.10 };

    #[inline(always)]
    fn say<S: TextSink>(self, out: &mut S) {
        self.0.say(out);
        self.1.say(out);
        self.2.say(out);
        self.3.say(out);
        self.4.say(out);
        self.5.say(out);
        self.6.say(out);
        self.7.say(out);
        self.8.say(out);
        self.9.say(out);
        self.10.say(out);
    }
}

impl<
    A: Part,
    B: Part,
    C: Part,
    D: Part,
    E: Part,
    F: Part,
    G: Part,
    H: Part,
    I: Part,
    J: Part,
    K: Part,
    L: Part,
> Part for (A, B, C, D, E, F, G, H, I, J, K, L) {
    ghost use Rattle.std.specs.Prelude.{◌++◌};

    ghost text = { λ parts. A.text parts.0 ++ B.text parts.1 ++ C.text parts.2 ++ D.text parts.3 ++ E.text parts.4 ++ F.text parts.5
        ++ G.text parts.6 ++ H.text parts.7 ++ I.text parts.8 ++ J.text parts.9 ++ K.text parts.10 ++ L.text parts.11 };

    #[inline(always)]
    fn say<S: TextSink>(self, out: &mut S) {
        self.0.say(out);
        self.1.say(out);
        self.2.say(out);
        self.3.say(out);
        self.4.say(out);
        self.5.say(out);
        self.6.say(out);
        self.7.say(out);
        self.8.say(out);
        self.9.say(out);
        self.10.say(out);
        self.11.say(out);
    }
}
