//! How the elements of a drawing look.

ghost use Rattle.std.specs.Prelude.{◌≡◌};
ghost use Rattle.rp_drawing.specs.Style.{style_text};

/// The elements that come first, after the opening one.
const STYLE: &str = "\
    <style>svg{font-family:monospace;font-size:11px}path{fill:none;stroke-width:1.3;stroke:#555}text{fill:#333;paint-order:stroke;stroke:#fff;stroke-width:3px}\n\
    .c1{stroke:#0072b2}.c2{stroke:#a85400}.c3{stroke:#00804f}.c4{stroke:#8e44ad}.c5{stroke:#8a5a00}.c6{stroke:#b83a80}.c7{stroke:#5c6b00}\n\
    .c8{stroke:#00436b}.c9{stroke:#8f5000}.c10{stroke:#004d2f}.c11{stroke:#55296a}.c12{stroke:#4d3200}.c13{stroke:#7a1f55}.c14{stroke:#3d4700}\n\
    .t1{fill:#0072b2}.t2{fill:#a85400}.t3{fill:#00804f}.t4{fill:#8e44ad}.t5{fill:#8a5a00}.t6{fill:#b83a80}.t7{fill:#5c6b00}\n\
    .k0,.s0{marker-end:url(#a)}.k1,.k2,.s1,.s2{marker-end:url(#x)}.k2,.s2{stroke-dasharray:6 3}.k3,.s3{stroke-dasharray:2 2}\n\
    @media(prefers-color-scheme:dark){rect{fill:#16181c}path{stroke:#aaa}text{fill:#ddd;stroke:#16181c}\n\
    .c1{stroke:#5ab4ec}.c2{stroke:#f0a050}.c3{stroke:#45c792}.c4{stroke:#cb8fe6}.c5{stroke:#d9a441}.c6{stroke:#ee8cc0}.c7{stroke:#b3c43a}\n\
    .c8{stroke:#8fd0ff}.c9{stroke:#ffc58a}.c10{stroke:#8fe0bd}.c11{stroke:#e0bdf2}.c12{stroke:#f0d090}.c13{stroke:#f7bfdc}.c14{stroke:#d3e08a}\n\
    .t1{fill:#5ab4ec}.t2{fill:#f0a050}.t3{fill:#45c792}.t4{fill:#cb8fe6}.t5{fill:#d9a441}.t6{fill:#ee8cc0}.t7{fill:#b3c43a}}\n\
    .k4{stroke-width:4}.k5{stroke-width:8}.k6{stroke-width:8;stroke:#e03030;stroke-dasharray:2 1}\n\
    .k7{stroke-width:4;stroke:#e03030}.k9{stroke-width:4;stroke:#00a040}.k10{stroke-width:8;stroke:#888}\n\
    .k8{stroke:#858c96}.k11{stroke:#858c96;stroke-width:7;stroke-dasharray:2 2}</style><defs>\n\
    <marker id='a' refX='9' refY='4' markerWidth='9' markerHeight='8' markerUnits='userSpaceOnUse' orient='auto'>\n\
    <path d='M0 1L9 4L0 7z' style='fill:#555;fill:context-stroke;stroke:none'/></marker>\n\
    <marker id='x' refX='5' refY='5' markerWidth='10' markerHeight='10' markerUnits='userSpaceOnUse'>\n\
    <path d='M1 1L9 9M9 1L1 9' style='stroke:#e03030;stroke-width:2'/></marker></defs>\n\
    <rect width='100%' height='100%' fill='#fff'/>\n";

/// The text of the elements that come first.
pub fn style_text() -> &'static str
    ensures { result.now ≡ style_text }
{
    STYLE
}
