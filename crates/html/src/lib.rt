// The opening tag of a link, and the tag of an image.
#![tactic(auto)]

ghost use Rattle.buffer.specs.Stored.{HasRoom, Grows};
ghost use Rattle.html.specs.Reading.{title_attribute, link_open, image_open, image_close};

use buffer::Page;

// A title attribute with the space before it; none for an empty title.
#[tactic(auto, using(crate::proofs::Link::no_title, crate::proofs::Link::some_title, crate::proofs::Link::some_title_length, buffer::proofs::Writing::nothing))]
fn put_title_attribute(page: &mut Page, title: &[u8])
    requires { HasRoom page.old (title_attribute title.now) }
    ensures { Grows page.old (title_attribute title.now) page.new }
{
    if title.is_empty() {
        return;
    }
    page.put(b" title=\"");
    escaping::put_text(page, title);
    page.put_byte(b'"');
}

// The opening tag of a link. An absent title is lent as an empty one.
#[tactic(auto, using(crate::proofs::Link::open_length), unfolding(crate::specs::Reading::link_open))]
pub fn put_link_open(page: &mut Page, destination: &[u8], title: &[u8])
    requires { HasRoom page.old (link_open destination.now title.now) }
    ensures { Grows page.old (link_open destination.now title.now) page.new }
{
    page.put(b"<a href=\"");
    href::put_href(page, destination);
    page.put_byte(b'"');
    put_title_attribute(page, title);
    page.put_byte(b'>');
}

// The tag of an image, up to its description.
#[tactic(auto, using(crate::proofs::Link::image_open_length), unfolding(crate::specs::Reading::image_open))]
pub fn put_image_open(page: &mut Page, destination: &[u8])
    requires { HasRoom page.old (image_open destination.now) }
    ensures { Grows page.old (image_open destination.now) page.new }
{
    page.put(b"<img src=\"");
    href::put_href(page, destination);
    page.put(b"\" alt=\"");
}

// The tag of an image after its description. An absent title is lent as an empty one.
#[tactic(auto, using(crate::proofs::Link::image_close_length), unfolding(crate::specs::Reading::image_close))]
pub fn put_image_close(page: &mut Page, title: &[u8])
    requires { HasRoom page.old (image_close title.now) }
    ensures { Grows page.old (image_close title.now) page.new }
{
    page.put_byte(b'"');
    put_title_attribute(page, title);
    page.put(b" />");
}
