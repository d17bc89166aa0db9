// Two laws over any struct and any setter: a lent setter gives what its by-value method gives, and so does a caller that lends a struct to it and has it back.
ghost use Rattle.std.specs.Fn.{FnOnceReturnsAtMut};

// A setter whose body is `let h = *self; *self = h.with_x(x);`: what the by-value method promises of its result, the setter promises of what it leaves.
pub fn sets<S: Copy, P, F: FnOnce(S, P) -> S>(at: &mut S, x: P, with: F)
    requires { F.pre with at.old x }
    ensures { F.post with at.old x at.new }
{
    let h = *at;
    *at = with(h, x);
}

// A caller that lends a struct to a setter and returns what stands there then: it returns what the setter leaves.
pub fn lends<S, F: FnOnce(&mut S)>(mut h: S, set: F) -> S
    requires { F.IsAlwaysCallable set }
    ensures { FnOnceReturnsAtMut F.FnOnce set h tt result }
{
    set(&mut h);
    h
}
