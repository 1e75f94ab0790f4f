//! The pieces of a page between its holes (`bench/page/template.html`), written by `bench/page/constants.py`.

ghost use Rattle.std.specs.Prelude.{◌≡◌};
ghost use Rattle.cw_report.specs.Frame.{
  before_about,
  before_gain,
  before_heading,
  before_output,
  before_scale,
  before_script,
  before_sites,
  before_source,
  before_speedup,
  before_style,
  before_title,
  end,
};

const BEFORE_TITLE: &[u8] = br##"<!DOCTYPE html>
<html lang="en" data-cilkwork-page="1">
<head>
<meta charset="utf-8">
<meta name="viewport" content="width=device-width, initial-scale=1">
<meta http-equiv="Content-Security-Policy" content="default-src 'none'; script-src 'sha256-7mjJnSZgjbhbrayjT2Gfom+BTq454ZffQ/W/5oppWmQ='; style-src 'sha256-6mbWN89tbcDRlfXa3Hme4PWH1EwzbmIv5ZIRWPiy/XM='; img-src data:; base-uri 'none'; form-action 'none'">
<meta name="color-scheme" content="light dark">
<link rel="icon" href="data:,">
<title>"##;

/// Returns the piece before the hole TITLE.
#[tactic(auto, unfolding(crate::specs::Frame::before_title))]
pub fn before_title() -> &'static [u8]
    ensures { result.now ≡ before_title }
{
    BEFORE_TITLE
}

const BEFORE_STYLE: &[u8] = br##" - cilkwork</title>
<style>
"##;

/// Returns the piece before the hole STYLE.
#[tactic(auto, unfolding(crate::specs::Frame::before_style))]
pub fn before_style() -> &'static [u8]
    ensures { result.now ≡ before_style }
{
    BEFORE_STYLE
}

const BEFORE_SCRIPT: &[u8] = br##"</style>
<script>
"##;

/// Returns the piece before the hole SCRIPT.
#[tactic(auto, unfolding(crate::specs::Frame::before_script))]
pub fn before_script() -> &'static [u8]
    ensures { result.now ≡ before_script }
{
    BEFORE_SCRIPT
}

const BEFORE_HEADING: &[u8] = br##"</script>
</head>
<body>
<header>
<p class="brand">cilkwork</p>
<h1>"##;

/// Returns the piece before the hole HEADING.
#[tactic(auto, unfolding(crate::specs::Frame::before_heading))]
pub fn before_heading() -> &'static [u8]
    ensures { result.now ≡ before_heading }
{
    BEFORE_HEADING
}

const BEFORE_ABOUT: &[u8] = br##"</h1>
</header>
<main id="page"></main>
<section id="reports" aria-labelledby="reports-heading">
<h2 id="reports-heading">Reports</h2>
<noscript><p>The plots and tables of this page need JavaScript. The reports that they are drawn from follow as text.</p></noscript>
<details open><summary>Settings</summary>
<pre id="data-about">
"##;

/// Returns the piece before the hole ABOUT.
#[tactic(auto, unfolding(crate::specs::Frame::before_about))]
pub fn before_about() -> &'static [u8]
    ensures { result.now ≡ before_about }
{
    BEFORE_ABOUT
}

const BEFORE_SCALE: &[u8] = br##"</pre></details>
<details open><summary>Program and regions (<code>scale</code>)</summary>
<pre id="data-scale">
"##;

/// Returns the piece before the hole SCALE.
#[tactic(auto, unfolding(crate::specs::Frame::before_scale))]
pub fn before_scale() -> &'static [u8]
    ensures { result.now ≡ before_scale }
{
    BEFORE_SCALE
}

const BEFORE_SPEEDUP: &[u8] = br##"</pre></details>
<details open><summary>Speedup (<code>speedup</code>)</summary>
<pre id="data-speedup">
"##;

/// Returns the piece before the hole SPEEDUP.
#[tactic(auto, unfolding(crate::specs::Frame::before_speedup))]
pub fn before_speedup() -> &'static [u8]
    ensures { result.now ≡ before_speedup }
{
    BEFORE_SPEEDUP
}

const BEFORE_GAIN: &[u8] = br##"</pre></details>
<details open><summary>Gain (<code>gain</code>)</summary>
<pre id="data-gain">
"##;

/// Returns the piece before the hole GAIN.
#[tactic(auto, unfolding(crate::specs::Frame::before_gain))]
pub fn before_gain() -> &'static [u8]
    ensures { result.now ≡ before_gain }
{
    BEFORE_GAIN
}

const BEFORE_SITES: &[u8] = br##"</pre></details>
<details open><summary>Call sites (<code>sites</code>)</summary>
<pre id="data-sites">
"##;

/// Returns the piece before the hole SITES.
#[tactic(auto, unfolding(crate::specs::Frame::before_sites))]
pub fn before_sites() -> &'static [u8]
    ensures { result.now ≡ before_sites }
{
    BEFORE_SITES
}

const BEFORE_OUTPUT: &[u8] = br##"</pre></details>
<details open><summary>Output (<code>run</code>)</summary>
<pre id="data-output">
"##;

/// Returns the piece before the hole OUTPUT.
#[tactic(auto, unfolding(crate::specs::Frame::before_output))]
pub fn before_output() -> &'static [u8]
    ensures { result.now ≡ before_output }
{
    BEFORE_OUTPUT
}

const BEFORE_SOURCE: &[u8] = br##"</pre></details>
<details open><summary>Source</summary>
<pre id="data-source">
"##;

/// Returns the piece before the hole SOURCE.
#[tactic(auto, unfolding(crate::specs::Frame::before_source))]
pub fn before_source() -> &'static [u8]
    ensures { result.now ≡ before_source }
{
    BEFORE_SOURCE
}

const END: &[u8] = br##"</pre></details>
</section>
</body>
</html>
"##;

/// Returns the piece after the last hole.
#[tactic(auto, unfolding(crate::specs::Frame::end))]
pub fn end() -> &'static [u8]
    ensures { result.now ≡ end }
{
    END
}
