// The lines that declare the ring.
ghost use Rattle.std.specs.Prelude.{◌≡◌};
ghost use Rattle.scenario_format.specs.Spelling.{with_ends};
ghost use Rattle.scenario_gen.specs.LoadText.{declared_lines};

/// Declares eight nodes in a ring, an application at each node, and all pairs of applications.
pub fn ring_lines() -> &'static str
    ensures { result.now ≡ with_ends declared_lines }
{
    "node n0
node n1
node n2
node n3
node n4
node n5
node n6
node n7
link n0 n1
link n1 n2
link n2 n3
link n3 n4
link n4 n5
link n5 n6
link n6 n7
link n0 n7
sae s0 n0
sae s1 n1
sae s2 n2
sae s3 n3
sae s4 n4
sae s5 n5
sae s6 n6
sae s7 n7
allow s0 s1
allow s0 s2
allow s0 s3
allow s0 s4
allow s0 s5
allow s0 s6
allow s0 s7
allow s1 s0
allow s1 s2
allow s1 s3
allow s1 s4
allow s1 s5
allow s1 s6
allow s1 s7
allow s2 s0
allow s2 s1
allow s2 s3
allow s2 s4
allow s2 s5
allow s2 s6
allow s2 s7
allow s3 s0
allow s3 s1
allow s3 s2
allow s3 s4
allow s3 s5
allow s3 s6
allow s3 s7
allow s4 s0
allow s4 s1
allow s4 s2
allow s4 s3
allow s4 s5
allow s4 s6
allow s4 s7
allow s5 s0
allow s5 s1
allow s5 s2
allow s5 s3
allow s5 s4
allow s5 s6
allow s5 s7
allow s6 s0
allow s6 s1
allow s6 s2
allow s6 s3
allow s6 s4
allow s6 s5
allow s6 s7
allow s7 s0
allow s7 s1
allow s7 s2
allow s7 s3
allow s7 s4
allow s7 s5
allow s7 s6
"
}
