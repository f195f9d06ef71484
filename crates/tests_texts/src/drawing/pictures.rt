//! Pictures of nodes.
use crate::drawing::nodes::drawn_first_run;
use std::alloc::Global;
use std::process::Abort;
use thp_drawing::{DrawnNode, put_escaped, put_picture};

// Written out manually, and looked at in a browser, on a light and on a dark background.
const PICTURE: &[u8] = b"<svg xmlns=\"http://www.w3.org/2000/svg\" viewBox=\"0 0 7200 7680\" \
role=\"img\" aria-labelledby=\"title desc\">\n\
<title id=\"title\">Deferred split queues</title>\n\
<desc id=\"desc\">Queue, batches, frames and pages of each node over its events; thpdraw --table lists them.</desc>\n\
<style>\n\
svg{display:block;width:100%;max-width:1080px;height:auto;margin:0 auto;color-scheme:light dark}\n\
text{font:120px system-ui,sans-serif;font-variant-numeric:tabular-nums}\n\
.h{font-size:150px;font-weight:600}.hh{font-size:190px;font-weight:600}.e{text-anchor:end}.c{text-anchor:middle}\n\
path{shape-rendering:crispEdges}.pale{fill-opacity:.35}.rule,.zero{fill:none;shape-rendering:auto;stroke-width:6}\n\
.s0,.s1,.s2,.s3,.s4{fill:currentColor}.bar,.lane{fill:none;stroke:currentColor;stroke-width:90}.thin{stroke-width:60}\n\
svg{background:#ffffff}.bg{fill:#ffffff}.ink{fill:#1c2128}.soft{fill:#5d6673}.bad{fill:#c8102e}\n\
.rule{stroke:#e4e7ec}.zero{stroke:#1c2128}.held{fill:#64748b}.given{fill:#a4582a}.pin,.wait{fill:#868d97}\n\
.s0{color:#8292a3}.s1{color:#a86b00}.s2{color:#2c46a4}.s3{color:#a03a8b}.s4{color:#10422a}\n\
@media(prefers-color-scheme:dark){\n\
svg{background:#14171c}.bg{fill:#14171c}.ink{fill:#e8ebf0}.soft{fill:#a3acb9}.bad{fill:#ff6b78}\n\
.rule{stroke:#2a3038}.zero{stroke:#e8ebf0}.held{fill:#8b9ab0}.given{fill:#d28a55}.pin,.wait{fill:#7f8793}\n\
.s0{color:#5d6878}.s1{color:#ffcc80}.s2{color:#397aff}.s3{color:#e07ab2}.s4{color:#6cca98}\n\
}</style>\n\
<rect class=\"bg\" x=\"0\" y=\"0\" width=\"7200\" height=\"7680\"/>\n\
<text class=\"ink hh\" x=\"150\" y=\"300\">Deferred split queues</text>\n\
<text class=\"soft\" x=\"150\" y=\"480\">The events of a node follow each other from left to right; those of two node\
s have no common time.</text>\n\
<text class=\"soft\" x=\"150\" y=\"640\">Full colour: a column's least number; pale: its greatest; stacks: its mean; \
bars of pages: its last stage.</text>\n\
<g transform=\"translate(0 660)\">\n\
<text class=\"ink h\" x=\"150\" y=\"240\">node 0: 16 blocks of 2^9 frames, underused off, 5 legal events</text>\n\
<g transform=\"translate(900 280)\">\n\
<text class=\"soft e\" x=\"-60\" y=\"150\">pages</text>\n\
<rect class=\"s2\" x=\"0\" y=\"72\" width=\"80\" height=\"80\"/>\n\
<text class=\"ink\" x=\"130\" y=\"150\">queue: most 1, last 0</text>\n\
<rect class=\"s3\" x=\"3000\" y=\"72\" width=\"80\" height=\"80\"/>\n\
<text class=\"ink\" x=\"3130\" y=\"150\">in batches: most 1, last 0</text>\n\
<g transform=\"translate(0 260)\">\n\
<path class=\"rule\" d=\"M0 0v1000M1000 0v1000M2000 0v1000M3000 0v1000M4000 0v1000M5000 0v1000\"/>\n\
<g transform=\"translate(0 500)\">\n\
<path class=\"rule\" d=\"M0 -500h6000\"/>\n\
<text class=\"soft e\" x=\"-60\" y=\"-500\" dy=\"40\">1</text>\n\
<path class=\"s2\" d=\"M0 0V-0h1000V-0h1000V-0h1000V-500h1000V-0h1000V-0h1000V0z\"/>\n\
<path class=\"rule\" d=\"M0 500h6000\"/>\n\
<text class=\"soft e\" x=\"-60\" y=\"500\" dy=\"40\">1</text>\n\
<path class=\"s3\" d=\"M0 0V0h1000V0h1000V0h1000V0h1000V500h1000V0h1000V0z\"/>\n\
<path class=\"zero\" d=\"M0 0h6000\"/>\n\
<text class=\"soft e\" x=\"-60\" y=\"0\" dy=\"40\">0</text>\n\
</g>\n\
</g>\n\
</g>\n\
<g transform=\"translate(900 1640)\">\n\
<text class=\"soft e\" x=\"-60\" y=\"150\">caller</text>\n\
<rect class=\"s3\" x=\"0\" y=\"72\" width=\"80\" height=\"80\"/>\n\
<text class=\"ink\" x=\"130\" y=\"150\">pages in its batch at least once in a column</text>\n\
<g transform=\"translate(0 260)\">\n\
<path class=\"rule\" d=\"M0 0v140M1000 0v140M2000 0v140M3000 0v140M4000 0v140M5000 0v140\"/>\n\
<path class=\"rule\" d=\"M0 70h6000\"/>\n\
<text class=\"soft e\" x=\"-60\" y=\"70\" dy=\"40\">0</text>\n\
<path class=\"lane s3\" d=\"M4000 70H5000\"/>\n\
</g>\n\
</g>\n\
<g transform=\"translate(900 2140)\">\n\
<text class=\"soft e\" x=\"-60\" y=\"150\">events</text>\n\
<rect class=\"wait\" x=\"0\" y=\"72\" width=\"80\" height=\"80\"/>\n\
<text class=\"ink\" x=\"130\" y=\"150\">the oldest page has waited: most 2, last 0</text>\n\
<g transform=\"translate(0 260)\">\n\
<path class=\"rule\" d=\"M0 0v1000M1000 0v1000M2000 0v1000M3000 0v1000M4000 0v1000M5000 0v1000\"/>\n\
<g transform=\"translate(0 1000)\">\n\
<path class=\"rule\" d=\"M0 -500h6000\"/>\n\
<text class=\"soft e\" x=\"-60\" y=\"-500\" dy=\"40\">1</text>\n\
<path class=\"rule\" d=\"M0 -1000h6000\"/>\n\
<text class=\"soft e\" x=\"-60\" y=\"-1000\" dy=\"40\">2</text>\n\
<path class=\"wait\" d=\"M0 0V-0h1000V-0h1000V-0h1000V-500h1000V-1000h1000V-0h1000V0z\"/>\n\
<path class=\"zero\" d=\"M0 0h6000\"/>\n\
<text class=\"soft e\" x=\"-60\" y=\"0\" dy=\"40\">0</text>\n\
</g>\n\
</g>\n\
</g>\n\
<g transform=\"translate(900 3500)\">\n\
<text class=\"soft e\" x=\"-60\" y=\"150\">frames</text>\n\
<rect class=\"held\" x=\"0\" y=\"72\" width=\"80\" height=\"80\"/>\n\
<text class=\"ink\" x=\"130\" y=\"150\">held: most 512, last 256</text>\n\
<rect class=\"given\" x=\"3000\" y=\"72\" width=\"80\" height=\"80\"/>\n\
<text class=\"ink\" x=\"3130\" y=\"150\">given back: most 256, last 256</text>\n\
<g transform=\"translate(0 260)\">\n\
<path class=\"rule\" d=\"M0 0v1000M1000 0v1000M2000 0v1000M3000 0v1000M4000 0v1000M5000 0v1000\"/>\n\
<g transform=\"translate(0 500)\">\n\
<path class=\"rule\" d=\"M0 -250h6000\"/>\n\
<text class=\"soft e\" x=\"-60\" y=\"-250\" dy=\"40\">256</text>\n\
<path class=\"rule\" d=\"M0 -500h6000\"/>\n\
<text class=\"soft e\" x=\"-60\" y=\"-500\" dy=\"40\">512</text>\n\
<path class=\"held\" d=\"M0 0V-0h1000V-500h1000V-500h1000V-500h1000V-500h1000V-250h1000V0z\"/>\n\
<path class=\"rule\" d=\"M0 250h6000\"/>\n\
<text class=\"soft e\" x=\"-60\" y=\"250\" dy=\"40\">128</text>\n\
<path class=\"rule\" d=\"M0 500h6000\"/>\n\
<text class=\"soft e\" x=\"-60\" y=\"500\" dy=\"40\">256</text>\n\
<path class=\"given\" d=\"M0 0V0h1000V0h1000V0h1000V0h1000V0h1000V500h1000V0z\"/>\n\
<path class=\"zero\" d=\"M0 0h6000\"/>\n\
<text class=\"soft e\" x=\"-60\" y=\"0\" dy=\"40\">0</text>\n\
</g>\n\
</g>\n\
</g>\n\
<g transform=\"translate(900 4860)\">\n\
<text class=\"soft e\" x=\"-60\" y=\"150\">tries</text>\n\
<rect class=\"s4\" x=\"0\" y=\"72\" width=\"80\" height=\"80\"/>\n\
<text class=\"ink\" x=\"130\" y=\"150\">split: most 1, last 1</text>\n\
<g transform=\"translate(0 260)\">\n\
<path class=\"rule\" d=\"M0 0v1000M1000 0v1000M2000 0v1000M3000 0v1000M4000 0v1000M5000 0v1000\"/>\n\
<g transform=\"translate(0 1000)\">\n\
<path class=\"rule\" d=\"M0 -1000h6000\"/>\n\
<text class=\"soft e\" x=\"-60\" y=\"-1000\" dy=\"40\">1</text>\n\
<path class=\"s4\" d=\"M0 0V-0h1000V-0h1000V-0h1000V-0h1000V-0h1000V-1000h1000V0z\"/>\n\
<path class=\"zero\" d=\"M0 0h6000\"/>\n\
<text class=\"soft e\" x=\"-60\" y=\"0\" dy=\"40\">0</text>\n\
</g>\n\
</g>\n\
</g>\n\
<g transform=\"translate(900 6220)\">\n\
<text class=\"soft e\" x=\"-60\" y=\"150\">page</text>\n\
<rect class=\"s0\" x=\"0\" y=\"72\" width=\"80\" height=\"80\"/>\n\
<text class=\"ink\" x=\"130\" y=\"150\">allocated</text>\n\
<rect class=\"s2\" x=\"2400\" y=\"72\" width=\"80\" height=\"80\"/>\n\
<text class=\"ink\" x=\"2530\" y=\"150\">queued</text>\n\
<rect class=\"s3\" x=\"3600\" y=\"72\" width=\"80\" height=\"80\"/>\n\
<text class=\"ink\" x=\"3730\" y=\"150\">in a batch</text>\n\
<rect class=\"s4\" x=\"4800\" y=\"72\" width=\"80\" height=\"80\"/>\n\
<text class=\"ink\" x=\"4930\" y=\"150\">split</text>\n\
<g transform=\"translate(0 260)\">\n\
<path class=\"rule\" d=\"M0 0v140M1000 0v140M2000 0v140M3000 0v140M4000 0v140M5000 0v140\"/>\n\
<path class=\"rule\" d=\"M0 70h6000\"/>\n\
<text class=\"soft e\" x=\"-60\" y=\"70\" dy=\"40\">0</text>\n\
<path class=\"bar s0\" d=\"M1000 70H3000\"/>\n\
<path class=\"bar s2\" d=\"M3000 70H4000\"/>\n\
<path class=\"bar s3\" d=\"M4000 70H5000\"/>\n\
<path class=\"bar s4\" d=\"M5000 70H6000\"/>\n\
</g>\n\
</g>\n\
<g transform=\"translate(900 6830)\">\n\
<text class=\"soft e\" x=\"-130\" y=\"0\">event</text>\n\
<text class=\"soft c\" x=\"0\" y=\"0\">0</text>\n\
<text class=\"soft c\" x=\"1000\" y=\"0\">1</text>\n\
<text class=\"soft c\" x=\"2000\" y=\"0\">2</text>\n\
<text class=\"soft c\" x=\"3000\" y=\"0\">3</text>\n\
<text class=\"soft c\" x=\"4000\" y=\"0\">4</text>\n\
<text class=\"soft c\" x=\"5000\" y=\"0\">5</text>\n\
</g>\n\
</g>\n\
</svg>\n";

// Words with each byte that has a name.
const ESCAPED: &[u8] = b"a &lt; b &amp; &quot;c&quot; &gt; d";

#[test]
fn words_are_escaped(rt: HostRuntime) {
    let mut text = Vec::new(rt.alloc());
    put_escaped(&mut text, b"a < b & \"c\" > d").expect(&rt, "memory");
    assert!(rt; text.as_slice() == ESCAPED);
}

fn expect_picture(rt: &impl Abort, alloc: Global, nodes: &[DrawnNode]) {
    let mut text = Vec::new(alloc);
    put_picture(&mut text, nodes).expect(rt, "memory");
    assert!(rt; text.as_slice() == PICTURE);
}

#[test]
fn picture_of_the_first_run(rt: HostRuntime) {
    expect_picture(&rt, rt.alloc(), &[drawn_first_run(&rt, rt.alloc())]);
}
